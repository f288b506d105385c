//! Fill values again and again.

ghost use Rattle.std.specs.Prelude.{◌≡◌, ◌∷◌, [], IfOk};
ghost use Rattle.zarrs_data_type_bytes.specs.Pieces.{repeated};
ghost use Rattle.zarrs_data_type_bytes.specs.FillValue.{fill_bytes};

use crate::FillValue;
use std::alloc::{AllocError, Global};

// One byte so many times.
#[tactic(auto, using(crate::proofs::RepeatLaws::repeated_byte))]
fn repeated_byte(alloc: Global, byte: u8, count: usize) -> Result<Vec<u8>, AllocError>
    ensures { IfOk result (λ bytes. bytes.items ≡ repeated count (byte ∷ [])) }
{
    let bytes = vec![in alloc; byte; count]?;
    Ok(bytes)
}

// Some bytes so many times.
#[tactic(auto, using(crate::proofs::PieceLaws::repeated_step))]
fn repeated_slice(alloc: Global, fill: &[u8], count: usize) -> Result<Vec<u8>, AllocError>
    ensures { IfOk result (λ bytes. bytes.items ≡ repeated count fill.now) }
{
    let Some(size) = count.checked_mul(fill.len()) else {
        return Err(AllocError);
    };
    let mut bytes = Vec::with_capacity(alloc, size)?;
    for _ in 0..count {
        bytes.extend_from_slice(fill)?;
    }
    Ok(bytes)
}

impl FillValue {
    /// Bytes that are the fill value `count` times, one after another.
    ///
    /// # Errors
    /// [`AllocError`] where memory runs out.
    #[tactic(auto, using(crate::proofs::RepeatLaws::repeated_none))]
    pub fn repeated(&self, alloc: Global, count: usize) -> Result<Vec<u8>, AllocError>
        ensures { IfOk result (λ bytes. bytes.items ≡ repeated count (fill_bytes self.now)) }
    {
        match self.as_ne_bytes() {
            [] => Ok(Vec::new(alloc)),
            [byte] => repeated_byte(alloc, *byte, count),
            fill => repeated_slice(alloc, fill, count),
        }
    }
}
