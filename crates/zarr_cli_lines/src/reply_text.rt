//! The text of replies.

ghost use Rattle.std.specs.Prelude.{◌≡◌, ◌<◌, ◌++◌, ℕ, codes, OnOk};
ghost use Rattle.zarr_model.specs.Prelude.{fixed, refusal_name, Matches};
ghost use Rattle.zarr_model.specs.Command as Model;
ghost use Rattle.zarr_array_boxes.specs.Command.{answer_of, refusal_of};
ghost use Rattle.zarrs_codec_array_bytes.specs.Steps.{kind_seen};
ghost use Rattle.zarr_cli_lines.specs.Text.{reply_text};
ghost use Rattle.zarr_cli_lines.specs.Parts.{AppendsReply};

use crate::push_elements;
use std::alloc::AllocError;
use zarr_array_boxes::{Refusal, Reply};
use zarrs_data_type::DataType;

fn push_refused(text: &mut Vec<u8>, refusal: Refusal) -> Result<(), AllocError>
    ensures { OnOk result (text.new.items ≡ text.old.items
        ++ (codes "refused " ++ refusal_name (refusal_of refusal))) }
{
    text.extend_from_slice(b"refused ")?;
    text.extend_from_slice(refusal.name().as_bytes())
}

#[tactic(auto, using(crate::proofs::ReplyLemmas::of_answers))]
fn push_answer(text: &mut Vec<u8>, reply: &Reply, data_type: &DataType) -> Result<(), AllocError>
    requires { (n : ℕ) → kind_seen data_type.now ≡ fixed n → 0 < n }
    ensures { OnOk result ((answer : Model.Reply) →
        Matches (kind_seen data_type.now) (answer_of reply.now) answer →
        text.new.items ≡ text.old.items ++ reply_text answer) }
{
    match reply {
        Reply::Elements(bytes) => {
            text.extend_from_slice(b"ok")?;
            push_elements(text, bytes, data_type)
        }
        Reply::Done => text.extend_from_slice(b"done"),
        Reply::Refused(refusal) => push_refused(text, *refusal),
    }
}

/// Appends the line of a reply: `ok` and the elements as text, `done`, or `refused` and the refusal's name. Elements
/// are of a data type.
///
/// # Errors
/// [`AllocError`] where memory runs out; the text may then have a part of the line.
pub fn push_reply(text: &mut Vec<u8>, reply: &Reply, data_type: &DataType) -> Result<(), AllocError>
    requires { (n : ℕ) → kind_seen data_type.now ≡ fixed n → 0 < n }
    ensures { OnOk result (AppendsReply (kind_seen data_type.now) reply.now text.old.items
        text.new.items) }
{
    push_answer(text, reply, data_type)?;
    text.push(b'\n')?;
    Ok(())
}
