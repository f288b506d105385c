//! Arrays that run commands.

ghost use Rattle.std.specs.Prelude.{◌≡◌, ◌<◌, ℕ, [], map};
ghost use Rattle.zarrs_codec_traits.specs.Prelude.{Description, kind, fixed, options_of, kind_seen};
ghost use Rattle.zarr_cli_runs.specs.array.boxes.Command.{command_of, AreReads};
ghost use Rattle.zarr_cli_runs.specs.array.OpenArray as opened;
ghost use Rattle.zarr_cli_runs.specs.Job.{job, Did};
ghost use Rattle.zarr_cli.specs.Array.{Replied};
ghost use Rattle.zarr_cli.specs.Run.{RunCosts, open_costs};

use std::alloc::Global;
use zarr_cli_runs::commands::replies_of;
use zarr_cli_runs::{CodecOptions, Command, OpenArray, Reply, Status};
use zarrs_data_type::DataType;
use zarrs_storage::Store;

/// An array that runs commands over a store.
pub trait CommandArray {
    /// What it is.
    ghost described: { Self → Description };

    /// What its commands cost.
    ghost costs: { Self → RunCosts };

    /// The data type of its elements.
    fn data_type(&self) -> &DataType
        ensures kind { kind_seen result.now ≡ kind (described self.now) }
        ensures sizes { (n : ℕ) → kind_seen result.now ≡ fixed n → 0 < n };

    /// Runs commands over a store, and gives their replies.
    ///
    /// # Errors
    /// `Chunk` where a read or a write met a value that does not decode, `Store` where the store failed, and
    /// `OutOfMemory`.
    fn replies<S: Store>(
        &self,
        alloc: Global,
        commands: &[Command],
        store: &mut S,
        options: &CodecOptions,
    ) -> Result<Vec<Reply>, Status>
        ensures did { Did (job (costs self.now).once (described self.now)
            (options_of options.now) [] (map command_of commands.now)) (Unit {0})
            (S.shown store.old) (S.shown store.new) result
            (λ held. Replied (costs self.now) (described self.now) (options_of options.now)
            (map command_of commands.now) (S.shown store.old) (S.shown store.new) held.items) }
        ensures kept { AreReads (map command_of commands.now) → S.kept store.old store.new };
}

impl CommandArray for OpenArray {
    ghost described = { opened.described_array };

    ghost costs = { λ array. open_costs (opened.documented array) };

    fn data_type(&self) -> &DataType {
        OpenArray::data_type(self)
    }

    fn replies<S: Store>(
        &self,
        alloc: Global,
        commands: &[Command],
        store: &mut S,
        options: &CodecOptions,
    ) -> Result<Vec<Reply>, Status> {
        replies_of(alloc, self.parts(), commands, store, options)
    }
}
