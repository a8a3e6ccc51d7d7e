//! The scan of a marked block.
ghost use Rattle.std.specs.Prelude.{◌≡◌, ◌+◌, ◌*◌, ◌≤◌, ℕ, Some, false};
ghost use Rattle.heap_words.specs.ColourWords.{IsPermutation};
ghost use Rattle.heap_rule.specs.declared.phase.Kind.TheVariants.{Rounds};
ghost use Rattle.heap_rule.specs.declared.phase.Stage.TheVariants.{In};
ghost use Rattle.heap_rule.specs.declared.view.Scan.TheVariants.{Reads};
ghost use Rattle.heap_rule.specs.Layout.{heap_words};
ghost use Rattle.heap_rule.specs.Standing.{IsInHeap};
ghost use Rattle.heap_rule.specs.Token.{IsIn};
ghost use Rattle.step_marks.specs.Marking.Looks.{with_share};
ghost use Rattle.step_marks.specs.Marking.Marking.{Anywhere, LiesAt, ScanMay, Site};
ghost use Rattle.gc_mark.specs.Shares.{Begun, Noted, ScannedAt, ScansBlocks, field_on, fields_to, scanning};

use crate::darkening::darken;
use crate::trail::Trail;
use do_fields::darkening::ToScan;
use heap_rule::{Domain, Heap, Reading, read_as};
use heap_words::{Colours, Value};
use step_marks::marking::{scan_load, scanned_store};

// Marks the block that the next field refers to, which is at `at`, if it refers to one. Answers whether
// this domain has marked it.
fn scan_field(heap: &Heap, dom: &mut Domain, at: u32, colours: Colours, trail: &mut Trail) -> bool
    requires here { IsIn dom.old heap.now }
    requires stage { ScansBlocks dom.old.view.seen.stage }
    requires known { dom.old.view.seen.share.colours ≡ Some colours }
    requires meanings { IsPermutation colours }
    requires inside { IsInHeap heap.now.config at }
    requires may { ScanMay dom.old.view at }
    requires noted { Noted heap.now.config dom.old.view trail.old.items trail.old.lost }
    ensures here { IsIn dom.new heap.now }
    ensures scanned { dom.new.view ≡ with_share dom.old.view (scanning dom.old.view.seen.share dom.new.view.seen.share (field_on dom.old.view.seen.share.scan) result) }
    ensures noted { Noted heap.now.config dom.new.view trail.new.items trail.new.lost }
    ensures kept { result ≡ false → trail.new.items ≡ trail.old.items }
{
    let _limits = heap.config();
    let word = scan_load(heap, dom, at);
    let Value::Ref(address) = read_as(Reading::AsValue, word) else {
        return false;
    };
    let won = darken(heap, dom, address, colours).is_some();
    if won {
        trail.push(address);
    }
    won
}

// Marks all blocks that the fields of a block refer to, whose scan has begun. Answers whether this
// domain has marked one of them.
fn scan_fields(
    heap: &Heap,
    dom: &mut Domain,
    block: u32,
    size: u32,
    colours: Colours,
    trail: &mut Trail,
) -> bool
    requires here { IsIn dom.old heap.now }
    requires stage { ScansBlocks dom.old.view.seen.stage }
    requires known { dom.old.view.seen.share.colours ≡ Some colours }
    requires meanings { IsPermutation colours }
    requires inside { block + size + 1 ≤ heap_words heap.now.config }
    requires begun { (head : ℕ) × (dom.old.view.seen.share.scan ≡ Reads block 0 size head) }
    requires noted { Noted heap.now.config dom.old.view trail.old.items trail.old.lost }
    ensures here { IsIn dom.new heap.now }
    ensures scanned { dom.new.view ≡ with_share dom.old.view (scanning dom.old.view.seen.share dom.new.view.seen.share (fields_to size dom.old.view.seen.share.scan) result) }
    ensures noted { Noted heap.now.config dom.new.view trail.new.items trail.new.lost }
    ensures kept { result ≡ false → trail.new.items ≡ trail.old.items }
{
    let _limits = heap.config();
    let mut darkened = false;
    for i in 0..size {
        darkened |= scan_field(heap, dom, block + 2 + i, colours, trail);
    }
    darkened
}

// Scans a block of a pool whose scan has begun, and then says in its head that it is scanned. Only in Mark
// may it lie at the next place of a walk. Answers whether this domain has marked a block.
pub(crate) fn scan_block(
    heap: &Heap,
    dom: &mut Domain,
    at: u32,
    block: ToScan,
    colours: Colours,
    trail: &mut Trail,
) -> bool
    ghost site: { Site }
    requires here { IsIn dom.old heap.now }
    requires stage { ScansBlocks dom.old.view.seen.stage }
    requires known { dom.old.view.seen.share.colours ≡ Some colours }
    requires meanings { IsPermutation colours }
    requires inside { (1 ≤ at) × (at ≤ heap.now.config.pools * 4096) }
    requires begun { Begun colours at block.fields block.scanned dom.old.view }
    requires lies { LiesAt site dom.old.view at }
    requires anywhere { dom.old.view.seen.stage ≡ In Rounds → site ≡ Anywhere }
    requires noted { Noted heap.now.config dom.old.view trail.old.items trail.old.lost }
    ensures here { IsIn dom.new heap.now }
    ensures scanned { ScannedAt site at result dom.old.view dom.new.view }
    ensures noted { Noted heap.now.config dom.new.view trail.new.items trail.new.lost }
    ensures kept { result ≡ false → trail.new.items ≡ trail.old.items }
{
    let _limits = heap.config();
    let darkened = scan_fields(heap, dom, at, block.fields, colours, trail);
    scanned_store(heap, dom, at, block.scanned);
    darkened
}
