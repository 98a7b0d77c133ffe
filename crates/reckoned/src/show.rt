// A case in which the product and the second reckoning differ, as it is printed: in hexadecimal.
use crate::finding::Finding;
use crate::second::scale::Scale;
use std::fmt;

#[derive(Drop)]
pub struct Case<'a, T> {
    pub sheet: &'a [u8],
    pub take: &'a [T],
    pub finding: Finding,
}

impl<T: Scale> Case<'_, T> {
    fn fmt_sheet<W: fmt::Write>(&self, f: &mut fmt::Formatter<W>) -> fmt::Result {
        for byte in self.sheet {
            write!(f, "{byte:02x}")?;
        }
        Ok(())
    }

    fn fmt_take<W: fmt::Write>(&self, f: &mut fmt::Formatter<W>) -> fmt::Result {
        for grade in self.take {
            let number: i64 = (*grade).into();
            write!(f, " {number:x}")?;
        }
        Ok(())
    }
}

impl<T: Scale> fmt::Display for Case<'_, T> {
    fn fmt<W: fmt::Write>(&self, f: &mut fmt::Formatter<W>) -> fmt::Result {
        write!(f, "sheet ")?;
        self.fmt_sheet(f)?;
        write!(f, "\ntake")?;
        self.fmt_take(f)?;
        let finding = self.finding;
        write!(f, "\n{finding}")
    }
}
