// Bytes of ASCII as text.
use rv32_dis::Line;
use std::fmt;

/// A line that is printed byte by byte.
#[derive(Drop)]
pub struct Text(pub Line);

impl fmt::Display for Text {
    fn fmt<W: fmt::Write>(&self, f: &mut fmt::Formatter<W>) -> fmt::Result {
        for byte in self.0.as_slice() {
            f.write_char(char::from(*byte))?;
        }
        Ok(())
    }
}
