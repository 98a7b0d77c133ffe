// The line and the notice, beside the same texts by the library's formatting.
use crate::bench::Bench;
use crate::finding::{Stop, What, same};
use crate::second::reason::Reason;
use crate::tally::count;
use refusal::Refusal;
use report::{line, notice};

impl Bench {
    // What a place of so many dots comes to, and the answer, where the text is written, or refused: the numbers may not fit it, or it the place.
    fn same_text<F: FnOnce(&mut [u8]) -> Result<usize, Refusal>>(
        &mut self,
        size: usize,
        write: F,
        text: &[u8],
        fits: bool,
    ) -> Result<(), Stop>
        requires { F.IsAlwaysCallable write }
    {
        count(&mut self.tally.texts);
        let mut place = vec![in self.heap; b'.'; size]?;
        let product = write(place.as_mut_slice());
        let granted = fits && text.len() <= size;
        let reckoned = if granted {
            Ok(text.len())
        } else {
            self.tally.count_refusal(Reason::Place);
            Err(Reason::Place)
        };
        same(What::Written, 0, product, reckoned)?;
        let letters = if granted { text } else { &[] };
        for (at, byte) in place.iter().enumerate() {
            let expected = letters.get(at).copied().unwrap_or(b'.');
            same(What::Text, at, *byte, expected)?;
        }
        Ok(())
    }

    pub(crate) fn same_line(&mut self) -> Result<(), Stop> {
        let number = self.dice.word() % 300;
        let low = self.dice.word();
        let shut = self.dice.once_in(3);
        let high = if shut { low } else { self.dice.word() };
        let word = if low == high { "shut" } else { "open" };
        let text = format!(in self.heap; "{number:03} {low:04x} {high:04x} {word}\n")?;
        let size = usize::from(self.dice.up_to(8)) + 14;
        let write = |place: &mut [u8]| line(place, number, low, high);
        self.same_text(size, write, text.as_bytes(), number <= 256)
    }

    pub(crate) fn same_notice(&mut self) -> Result<(), Stop> {
        let number = self.dice.up_to(110);
        let row = self.dice.up_to(110);
        let text = format!(in self.heap; "refused {number:02} {row:02}\n")?;
        let size = usize::from(self.dice.up_to(6)) + 12;
        let write = |place: &mut [u8]| notice(place, number, row);
        let fits = number <= 99 && row <= 99;
        self.same_text(size, write, text.as_bytes(), fits)
    }
}
