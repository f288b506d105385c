//! Replies counted by kind.

ghost use Rattle.std.specs.Prelude.{◌≡◌, ◌<◌, length, IfOk, OnOk};
ghost use Rattle.zarrs_codec_array_bytes.specs.Raw.{raw_of};
ghost use Rattle.zarr_cli_lines.specs.Place.{fixed_part};
ghost use Rattle.zarr_cli_runs.specs.Tally.{MayRise, CountsReply, CountsAll};

use std::alloc::AllocError;
use zarr_cli_lines::Reply;
use zarrs_codec_array_bytes::ArrayBytes;
use zarrs_codec_array_bytes::array_bytes::bytes_in;

/// How many replies there are of each kind, and the elements of all.
#[derive(Clone, Copy, Debug, PartialEq, Eq)]
pub(crate) struct Tally {
    pub(crate) ok: usize,
    pub(crate) done: usize,
    pub(crate) refused: usize,
    pub(crate) elements: usize,
}

// The number of bytes of elements of one size; of others 0.
fn num_bytes(bytes: &ArrayBytes<'static>) -> usize
    ensures { result ≡ length (fixed_part (raw_of bytes.now)) }
{
    match bytes {
        ArrayBytes::Fixed(raw) => bytes_in(raw).len(),
        ArrayBytes::Variable(_) | ArrayBytes::Optional(_) => 0,
    }
}

impl Tally {
    // Adds a reply, whose elements have `size` bytes. The elements of replies in memory never pass the largest number;
    // where they would, memory is said to be wanting.
    fn add(&mut self, reply: &Reply, size: usize) -> Result<(), AllocError>
        requires some { 0 < size }
        requires room { MayRise self.now }
        ensures { OnOk result (CountsReply size reply.now self.old self.new) }
    {
        match reply {
            Reply::Elements(bytes) => {
                let Some(elements) = self.elements.checked_add(num_bytes(bytes) / size) else {
                    return Err(AllocError);
                };
                self.ok += 1;
                self.elements = elements;
            }
            Reply::Done => self.done += 1,
            Reply::Refused(_) => self.refused += 1,
        }
        Ok(())
    }
}

/// Counts replies, whose elements have `size` bytes.
pub(crate) fn tally_of(replies: &[Reply], size: usize) -> Result<Tally, AllocError>
    requires { 0 < size }
    ensures { IfOk result (CountsAll size replies.now) }
{
    let mut tally = Tally {
        ok: 0,
        done: 0,
        refused: 0,
        elements: 0,
    };
    for reply in replies {
        tally.add(reply, size)?;
    }
    Ok(tally)
}
