//! Commands, replies and headings as lines of text.
ghost use Rattle.std.specs.Prelude.{◌≡◌, ◌≤◌, ◌+◌, ◌*◌, ◌++◌, pos, map, length, take, drop, option_to_list, IfSome};
ghost use Rattle.model_core.specs.Output.{reply_text, label_text, line};
ghost use Rattle.text_script.specs.Spelling.{row_text, command_text, heading_text};
ghost use Rattle.text_script.specs.Forms.{form, parts};

use crate::form::Word;
use crate::front::{Line, end_line, put, put_integer, put_number};
use crate::table::text_of;
use model_core::command::Command;
use model_core::label::Label;
use model_core::reply::Reply;

/// Puts the line of a reply, with its line feed, at the front of `out`, and answers its length.
/// The rest of `out` stays as it was.
pub fn print_reply(reply: &Reply, out: &mut Line) -> usize
    ensures length { result ≡ length (line (reply_text reply.now)) }
    ensures fits { result ≤ 64 }
    ensures text { out.new ≡ line (reply_text reply.now) ++ drop result out.old }
{
    let end = put_reply(out, reply);
    end_line(out, end)
}

/// Puts the heading `domain d`, with its line feed, at the front of `out`, and answers its length.
/// The rest of `out` stays as it was.
#[tactic(auto, using(crate::proofs::FrontLemmas::short_number))]
pub fn print_heading(domain: u32, out: &mut Line) -> usize
    ensures length { result ≡ length (line (heading_text domain)) }
    ensures fits { result ≤ 64 }
    ensures text { out.new ≡ line (heading_text domain) ++ drop result out.old }
{
    let end = put_number(out, 0, b"domain ", u64::from(domain));
    end_line(out, end)
}

/// Puts the line of a command, with its line feed, at the front of `out`, and answers its length.
/// The rest of `out` stays as it was. A command is printed whether or not its word is built.
pub fn print_command(command: &Command, out: &mut Line) -> usize
    ensures length { result ≡ length (line (command_text command.now)) }
    ensures fits { result ≤ 64 }
    ensures text { out.new ≡ line (command_text command.now) ++ drop result out.old }
{
    let end = put_command(out, command);
    end_line(out, end)
}

// Puts a text, and behind it a label, behind the first `at` bytes, and answers where it ends.
#[tactic(auto, using(crate::proofs::FrontLemmas::same_further, crate::proofs::FrontLemmas::short_number))]
fn put_label(out: &mut Line, at: usize, text: &[u8], label: Label) -> usize
    requires { at + length text.now ≤ 40 }
    ensures end { result ≤ at + length text.now + 21 }
    ensures start { at ≤ result }
    ensures front { take result out.new ≡ take at out.old ++ text.now ++ label_text label }
    ensures rest { drop result out.new ≡ drop result out.old }
{
    let at = put_number(out, at, text, u64::from(label.domain));
    put_number(out, at, b":", u64::from(label.serial))
}

#[tactic(auto, using(crate::proofs::FrontLemmas::same_further, crate::proofs::FrontLemmas::long_number))]
fn put_live(out: &mut Line, blocks: u64, words: u64) -> usize
    ensures end { result ≤ 63 }
    ensures front { take result out.new ≡ reply_text (Reply.Live blocks words) }
    ensures rest { drop result out.new ≡ drop result out.old }
{
    let at = put_number(out, 0, b"live ", blocks);
    put_number(out, at, b" ", words)
}

#[tactic(auto, using(crate::proofs::FrontLemmas::same_further, crate::proofs::FrontLemmas::short_number))]
fn put_fin(out: &mut Line, number: u32, label: Label) -> usize
    ensures end { result ≤ 63 }
    ensures front { take result out.new ≡ reply_text (Reply.Fin number label) }
    ensures rest { drop result out.new ≡ drop result out.old }
{
    let at = put_number(out, 0, b"fin ", u64::from(number));
    put_label(out, at, b" ", label)
}

// Puts the text of a reply at the front of the line, and answers where it ends. What lies behind it stays as it was.
#[tactic(auto, using(crate::proofs::FrontLemmas::same_further, crate::proofs::FrontLemmas::short_number, crate::proofs::FrontLemmas::integer_number))]
fn put_reply(out: &mut Line, reply: &Reply) -> usize
    ensures end { result ≤ 63 }
    ensures front { take result out.new ≡ reply_text reply.now }
    ensures rest { drop result out.new ≡ drop result out.old }
{
    match *reply {
        Reply::Done => put(out, 0, b"ok"),
        Reply::Int(value) => put_integer(out, 0, b"int ", value),
        Reply::Block(label) => put_label(out, 0, b"blk ", label),
        Reply::BadType => put(out, 0, b"type"),
        Reply::BadIndex => put(out, 0, b"bounds"),
        Reply::Empty => put(out, 0, b"none"),
        Reply::Yes => put(out, 0, b"yes"),
        Reply::No => put(out, 0, b"no"),
        Reply::Full => put(out, 0, b"full"),
        Reply::Live { blocks, words } => put_live(out, blocks, words),
        Reply::Fin { number, label } => put_fin(out, number, label),
        Reply::Last { number } => put_number(out, 0, b"last ", u64::from(number)),
    }
}

// Puts a row with numbers that aren't negative at the front of the line, and answers where it ends.
fn put_row(out: &mut Line, word: Word, numbers: &[u32]) -> usize
    requires { length numbers.now ≤ 4 }
    ensures end { result ≤ 13 + 11 * length numbers.now }
    ensures front { take result out.new ≡ row_text word (map pos numbers.now) }
    ensures rest { drop result out.new ≡ drop result out.old }
{
    let mut at = put(out, 0, text_of(word));
    for number in numbers {
        at = put_number(out, at, b" ", u64::from(*number));
    }
    at
}

// A command taken apart: its word, the first of four numbers, none of which is negative, and an integer behind them, if it
// has one.
#[derive(Clone, Copy)]
struct Row {
    word: Word,
    numbers: [u32; 4],
    count: usize,
    integer: Option<i64>,
}

// A row by its word's name and its numbers.
macro_rules! row {
    ($word:ident) => { row!($word; 0; 0, 0, 0, 0) };
    ($word:ident, $a:expr) => { row!($word; 1; u32::from($a), 0, 0, 0) };
    ($word:ident, $a:expr, $b:expr) => { row!($word; 2; u32::from($a), u32::from($b), 0, 0) };
    ($word:ident, $a:expr, $b:expr, $c:expr) => { row!($word; 3; u32::from($a), u32::from($b), u32::from($c), 0) };
    ($word:ident, $a:expr, $b:expr, $c:expr, $d:expr) => { row!($word; 4; u32::from($a), u32::from($b), u32::from($c), u32::from($d)) };
    ($word:ident; $count:expr; $($number:expr),*) => {
        Row {
            word: Word::$word,
            numbers: [$($number),*],
            count: $count,
            integer: None,
        }
    };
}

// A command, taken apart.
fn row_of(command: &Command) -> Row
    ensures word { result.word ≡ (parts command.now).word }
    ensures numbers { map pos (take result.count result.numbers) ++ option_to_list result.integer ≡ (parts command.now).numbers }
    ensures count { result.count ≤ length result.numbers }
    ensures few { result.count ≤ 4 }
    ensures alone { IfSome result.integer (λ z. result.count ≤ 1) }
{
    match *command {
        Command::PutInt { dst, value } => Row {
            word: Word::Int,
            numbers: [u32::from(dst), 0, 0, 0],
            count: 1,
            integer: Some(value),
        },
        Command::Copy { dst, src } => row!(Move, dst, src),
        Command::Forget { dst } => row!(Drop, dst),
        Command::Alloc { dst, tag, fields } => row!(Alloc, dst, tag, fields),
        Command::AllocMaj { dst, tag, fields } => row!(AllocMaj, dst, tag, fields),
        Command::Load { dst, src, index } => row!(Load, dst, src, index),
        Command::Store { block, index, item } => row!(Store, block, index, item),
        Command::Raw { dst, tag, fields } => row!(Raw, dst, tag, fields),
        Command::Cas {
            block,
            index,
            expected,
            item,
        } => row!(Cas, block, index, expected, item),
        Command::Ephe { dst, keys } => row!(Ephe, dst, keys),
        Command::SetKey { ephe, index, item } => row!(SetKey, ephe, index, item),
        Command::UnsetKey { ephe, index } => row!(UnsetKey, ephe, index),
        Command::GetKey { dst, ephe, index } => row!(GetKey, dst, ephe, index),
        Command::CheckKey { ephe, index } => row!(CheckKey, ephe, index),
        Command::SetData { ephe, item } => row!(SetData, ephe, item),
        Command::UnsetData { ephe } => row!(UnsetData, ephe),
        Command::GetData { dst, ephe } => row!(GetData, dst, ephe),
        Command::CheckData { ephe } => row!(CheckData, ephe),
        Command::Finalise { item, number, dst } => row!(Finalise, item, number, dst),
        Command::FinaliseLast { item, number } => row!(FinaliseLast, item, number),
        Command::Poll => row!(Poll),
        Command::Minor => row!(Minor),
        Command::Major => row!(Major),
        Command::FullMajor => row!(FullMajor),
        Command::Spawn { section, item } => row!(Spawn, section, item),
        Command::Argument { dst } => row!(Argument, dst),
        Command::PutResult { item } => row!(Result, item),
        Command::Join { dst, section } => row!(Join, dst, section),
    }
}

// Puts the text of a command at the front of the line, and answers where it ends. What lies behind it stays as it was.
#[tactic(auto, using(crate::proofs::FrontLemmas::same_further, crate::proofs::FrontLemmas::integer_number))]
fn put_command(out: &mut Line, command: &Command) -> usize
    ensures end { result ≤ 63 }
    ensures front { take result out.new ≡ command_text command.now }
    ensures rest { drop result out.new ≡ drop result out.old }
{
    let row = row_of(command);
    let end = put_row(out, row.word, &row.numbers[..row.count]);
    match row.integer {
        Some(value) => put_integer(out, end, b" ", value),
        None => end,
    }
}
