//! How many bits a state takes.

ghost use Rattle.std.specs.Prelude.{◌≡◌, ◌≤◌, ◌<◌, ◌↔◌, IsTrue, length, sum_by};
ghost use Rattle.symk_task.specs.Variables.{width};
ghost use Rattle.symk_task.specs.Fits.{bits_of};

use crate::parts::Variable;

/// The most bits that the values of a state may take together.
pub const STATE_BITS: u32 = 65_536;

/// The least number of bits that tell so many values apart: 0 for one value, 16 for 65,536.
pub fn width(values: u64) -> u32
    ensures value { result ≡ width values }
    ensures most { result ≤ 64 }
{
    for bits in 0..64 {
        if values <= 1 << bits {
            return bits;
        }
    }
    64
}

/// How many bits of a state the variable takes.
fn bits_of(variable: &Variable) -> u32
    ensures value { result ≡ bits_of variable.now }
    ensures most { result ≤ 64 }
{
    if variable.layer.is_none() {
        width(variable.values.len() as u64)
    } else {
        0
    }
}

/// Whether the values of a state take few enough bits.
pub fn bits_fit(variables: &[Variable]) -> bool
    ensures { IsTrue result ↔ (sum_by bits_of variables.now ≤ 65536) }
{
    let mut bits = 0;
    for variable in variables {
        bits += bits_of(variable);
        if bits > STATE_BITS {
            return false;
        }
    }
    true
}
