// Lower-case hexadecimal digits.
ghost use Rattle.std.specs.Prelude.{◌≡◌, ◌+◌, ◌*◌, ◌≤◌, ◌++◌, length};
ghost use Rattle.std.specs.List.{flat_map};
ghost use Rattle.arrayvec.specs.ArrayVec.{array_vec_len};
ghost use Rattle.conda_base.specs.Digits.{hex_byte};

use crate::line::TextLine;
use conda_base::digit_of;

/// Appends two digits a byte.
pub fn push_bytes_digits(out: &mut TextLine, bytes: &[u8])
    requires { array_vec_len out.old + 2 * length bytes.now ≤ 288 }
    ensures text { out.new.items ≡ out.old.items ++ flat_map hex_byte bytes.now }
    ensures len { array_vec_len out.new ≡ array_vec_len out.old + 2 * length bytes.now }
{
    for byte in bytes {
        out.push(digit_of(u32::from(*byte / 16)));
        out.push(digit_of(u32::from(*byte % 16)));
    }
}
