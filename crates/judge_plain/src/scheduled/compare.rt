//! Where two texts differ.
ghost use Rattle.std.specs.Prelude.{◌≡◌};
ghost use Rattle.judge_plain.specs.Scheduled.Lines.{differs_from};

/// The first line, counted from 1, in which an output is not the one that is expected: none, where it is that one.
pub fn first_difference(expected: &[u8], output: &[u8]) -> Option<usize>
    ensures { result ≡ differs_from 1 expected.now output.now }
{
    let mut line = 1;
    let mut rest = output;
    'bytes: for byte in expected {
        let Some((first, behind)) = rest.split_first() else {
            return Some(line);
        };
        if first != byte {
            return Some(line);
        }
        if *byte == b'\n' {
            line += 1;
        }
        rest = behind;
    }
    if rest.is_empty() { None } else { Some(line) }
}
