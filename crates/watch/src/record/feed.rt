// Feeding a watch.
ghost use Rattle.std.specs.Prelude.{◌≡◌, ◌+◌, ◌≤◌, true, ◌++◌, length, take, drop, is_err};
ghost use Rattle.watch.specs.Feeding.{progress_of, feed_answer, accepted_by, advanced, logged};

use crate::record::Watch;
use grade::Grade;
use refusal::Refusal;

// The grades, written into the log from `from` on.
fn write<G: Grade>(log: &mut [G], from: usize, grades: &[G])
    requires { from + length grades.now ≤ length log.old }
    ensures { log.new ≡ take from log.old ++ (grades.now ++ drop (from + length grades.now) log.old) }
{
    log[from..from + grades.len()].copy_from_slice(grades);
}

impl Watch {
    // How many frames it accepts of a strip, or why none, by the sizes of the log and the strip.
    fn granted(&self, log: usize, strip: usize) -> Result<usize, Refusal>
        ensures { result ≡ feed_answer (progress_of self.now) log strip }
    {
        let facts = self.sheet.facts() as usize;
        let frames = self.frames();
        let missing = frames - self.accepted as usize;
        if log < facts * frames {
            return Err(Refusal::ShortLog);
        }
        if strip % facts != 0 {
            return Err(Refusal::BrokenStrip);
        }
        if missing == 0 && strip > 0 {
            return Err(Refusal::TakeComplete);
        }
        Ok((strip / facts).min(missing))
    }

    // Accepts frames from the strip's front until the take is complete, and writes them to the log.
    pub fn feed<G: Grade>(&mut self, log: &mut [G], strip: &[G]) -> Result<usize, Refusal>
        ensures answer { result ≡ feed_answer (progress_of self.old) (length log.old) (length strip.now) }
        ensures watch { progress_of self.new ≡ advanced (progress_of self.old) (accepted_by result) }
        ensures sheet { self.new.sheet ≡ self.old.sheet }
        ensures log { log.new ≡ logged (progress_of self.old) (accepted_by result) strip.now log.old }
        ensures unchanged { is_err result ≡ true → (self.new ≡ self.old) × (log.new ≡ log.old) }
    {
        let taken = self.granted(log.len(), strip.len())?;
        let facts = self.sheet.facts() as usize;
        write(log, self.accepted as usize * facts, &strip[..taken * facts]);
        self.accepted += taken as u16;
        Ok(taken)
    }
}
