// Judges sheets by the hundred: a sheet in hexadecimal on each line, its answer of `check` on each line.
#![tactic(auto)]

ghost use Rattle.std.specs.Prelude.{◌<◌};

use sheet::check::check;
use std::alloc::{AllocError, Global};
use std::io;

// The value of a hexadecimal digit; anything else counts as 0.
fn digit(c: u8) -> u8
    ensures { result < 16 }
{
    match c {
        b'0'..=b'9' => c - b'0',
        b'a'..=b'f' => c - b'a' + 10,
        _ => 0,
    }
}

fn bytes_of(heap: Global, text: &[u8]) -> Result<Vec<u8>, AllocError> {
    let mut bytes = Vec::new(heap);
    for pair in text.chunks(2) {
        if let [high, low] = pair {
            bytes.push(digit(*high) * 16 + digit(*low))?;
        }
    }
    Ok(bytes)
}

fn main(rt: HostRuntime) -> io::Result<()> {
    let heap = rt.alloc();
    for line in rt.lines(heap) {
        let text = line?;
        let bytes = bytes_of(heap, text.as_bytes())?;
        let answer = check(bytes.as_slice());
        println!(rt; "{answer}")?;
    }
    Ok(())
}

#[cfg(test)]
mod tests {
    use sheet::check::check as answer;
    use sheet::record::Sheet;
    use std::mem::size_of;

    const WINDOW: [u8; 10] = [1, 2, 1, 7, 1, 0, 0, 0, 3, 0];

    #[test]
    fn a_hold_within_a_window_loads(rt: HostRuntime) {
        let mut sheet = Sheet::new();
        assert!(rt; sheet.load(&WINDOW).is_ok());
        assert_eq!(rt; sheet.rows().len(), 2);
        assert_eq!(rt; sheet.length(), 3);
        assert!(rt; sheet.sided());
    }

    #[test]
    fn only_a_then_is_too_long(rt: HostRuntime) {
        assert_eq!(rt; answer(&[1, 3, 1, 1, 6, 127, 0, 0, 127, 0, 0, 0, 1, 0]), 0);
        assert_eq!(rt;
            answer(&[1, 3, 1, 1, 6, 127, 0, 0, 128, 0, 0, 0, 1, 0]),
            1026
        );
    }

    #[test]
    fn an_inner_either_has_equal_sides(rt: HostRuntime) {
        assert_eq!(rt; answer(&[1, 3, 1, 1, 4, 0, 0, 0, 1, 0, 0, 0, 1, 0]), 0);
        assert_eq!(rt;
            answer(&[1, 4, 1, 1, 4, 7, 0, 0, 0, 1, 0, 0, 0, 1, 0, 0, 1, 2]),
            256 * 6 + 2
        );
        assert_eq!(rt;
            answer(&[1, 4, 1, 1, 4, 7, 1, 0, 0, 1, 0, 0, 0, 1, 0, 0, 1, 2]),
            0
        );
    }

    #[test]
    fn a_fact_held_on_and_off_is_two_sided(rt: HostRuntime) {
        let mut sheet = Sheet::new();
        assert!(rt;
            sheet
                .load(&[1, 3, 1, 2, 3, 0, 0, 0, 0, 0, 0, 0, 1, 0])
                .is_ok()
        );
        assert!(rt; !sheet.sided());
        assert!(rt;
            sheet
                .load(&[1, 4, 1, 2, 5, 3, 0, 0, 0, 0, 0, 0, 1, 0, 0, 0, 2, 0])
                .is_ok()
        );
        assert!(rt; sheet.sided());
    }

    #[test]
    fn a_refusal_leaves_the_record(rt: HostRuntime) {
        let mut sheet = Sheet::new();
        assert!(rt; sheet.load(&WINDOW).is_ok());
        assert!(rt; sheet.load(&[1, 1, 8, 0, 0, 0]).is_err());
        assert_eq!(rt; sheet.rows().len(), 2);
        assert_eq!(rt; sheet.length(), 3);
    }

    #[test]
    fn the_record_is_small(rt: HostRuntime) {
        assert!(rt; size_of::<Sheet>() < 512);
        assert_eq!(rt; size_of::<Sheet>(), 162);
    }
}
