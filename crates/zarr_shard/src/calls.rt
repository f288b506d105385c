//! Commands on a sharded array.

ghost use Rattle.std.specs.Prelude.{◌≡◌, [], ◌∷◌, map, Some, None, IfErr};
ghost use Rattle.zarr_model.specs.Prelude.{read, write, erase};
ghost use Rattle.zarrs_codec_traits.specs.Prelude.{region as region_of_subset, raw_of, options_of};
ghost use Rattle.zarr_array.specs.boxes.Command.{command_of, region_at, AreReads};
ghost use Rattle.zarr_array.specs.Ended.{ended, ended_one};
ghost use Rattle.zarr_array.specs.Runs.{RunsOn};
ghost use Rattle.zarr_array.specs.Answers.{AnswersRefused, AnswersRead, IsAlone, StopsWrite};
ghost use Rattle.zarr_shard.specs.Calls.{CostsOfReads, TellsOfShards};

use crate::array::ShardArray;
use std::alloc::Global;
use zarr_array::commands::{run_commands, run_erase, run_read, run_write};
use zarr_array::{CodecOptions, Command, Reply, SessionError};
use zarrs_array_subset::ArraySubset;
use zarrs_codec_array_bytes::ArrayBytes;
use zarrs_storage::Store;

impl ShardArray {
    ghost use Rattle.zarr_shard.specs.ShardArray.{documented_shards, described_shards};

    /// Reads a region of the array: its elements in row-major order, or why it is refused.
    ///
    /// Of each chunk that the region meets, in row-major order, the index is read by one call, and each inner chunk
    /// that the region meets and that is there by one.
    ///
    /// # Errors
    /// `ChunkDecode` with the key of a chunk that the region meets and whose index is not found or of whose inner
    /// chunks one that the region meets does not decode, `Store` where the store failed, or `OutOfMemory`. The command
    /// is number 0.
    pub fn read<S: Store>(
        &self,
        alloc: Global,
        region: &ArraySubset,
        store: &mut S,
        options: &CodecOptions,
    ) -> Result<Reply, SessionError>
        ensures runs { RunsOn (described_shards self.now) (options_of options.now)
            (read (region_of_subset region.now) ∷ [])
            (S.shown store.old) (S.shown store.new) (ended_one result) }
        ensures costs { CostsOfReads (documented_shards self.now) (options_of options.now)
            (read (region_of_subset region.now) ∷ [])
            (S.shown store.old) (S.shown store.new) (ended_one result) }
        // A refusal is an answer, and no reply has an element of 2^32 bytes or more.
        ensures read { AnswersRead (described_shards self.now) (region_of_subset region.now)
            (S.shown store.old) (S.shown store.new) result }
        ensures begun { IfErr result IsAlone }
        ensures kept { S.kept store.old store.new }
        ensures told { IfErr result (λ error. TellsOfShards self.now
            (Some (region_of_subset region.now)) (options_of options.now) (S.shown store.new)
            error.kind) }
    {
        Ok(run_read(self, alloc, region, &mut None, store, options)?)
    }

    /// Writes elements to a region of the array, in its row-major order: done, or why it is refused. The bytes are of
    /// the data type's kind, as those of [`OpenArray::write`](zarr_array::OpenArray::write).
    ///
    /// Each chunk that the region meets is read whole, in row-major order, and stored anew whole, without its inner
    /// chunks of fill value alone; or its key is erased where it has no others. Under options that have such chunks
    /// stored all are.
    ///
    /// # Errors
    /// `ChunkDecode` with the key of a chunk that the region meets and whose old value does not decode, also where the
    /// region covers all of it, `Store` where the store failed, or `OutOfMemory`. The command is number 0, and the
    /// error says how many chunks were finished. These stay written, and a damaged value stands.
    pub fn write<S: Store>(
        &self,
        alloc: Global,
        region: &ArraySubset,
        bytes: &ArrayBytes<'_>,
        store: &mut S,
        options: &CodecOptions,
    ) -> Result<Reply, SessionError>
        ensures runs { RunsOn (described_shards self.now) (options_of options.now)
            (write (region_of_subset region.now) (raw_of bytes.now) ∷ [])
            (S.shown store.old) (S.shown store.new) (ended_one result) }
        ensures answered { AnswersRefused (described_shards self.now)
            (write (region_of_subset region.now) (raw_of bytes.now) ∷ []) result }
        // An error that is not the store's leaves the chunks before it changed, and all other keys as they were.
        ensures begun { IfErr result (StopsWrite (described_shards self.now)
            (options_of options.now)
            (region_of_subset region.now) (raw_of bytes.now) (S.shown store.old) (S.shown store.new)) }
        ensures told { IfErr result (λ error. TellsOfShards self.now None
            (options_of options.now) (S.shown store.new) error.kind) }
    {
        Ok(run_write(self, alloc, region, bytes, &mut None, store, options)?)
    }

    /// Erases the chunk of these indices, so that all its elements are the fill value: done, or why it is refused.
    ///
    /// Nothing is read.
    ///
    /// # Errors
    /// `Store` where the store failed, or `OutOfMemory`. The command is number 0.
    pub fn erase<S: Store>(
        &self,
        alloc: Global,
        chunk: &[u64],
        store: &mut S,
        options: &CodecOptions,
    ) -> Result<Reply, SessionError>
        ensures runs { RunsOn (described_shards self.now) (options_of options.now)
            (erase chunk.now ∷ [])
            (S.shown store.old) (S.shown store.new) (ended_one result) }
        ensures unasked { (S.shown store.new).asks ≡ (S.shown store.old).asks }
        ensures untaken { (S.shown store.new).taken ≡ (S.shown store.old).taken }
        ensures answered { AnswersRefused (described_shards self.now)
            (erase chunk.now ∷ []) result }
        ensures begun { IfErr result IsAlone }
        ensures told { IfErr result (λ error. TellsOfShards self.now None
            (options_of options.now) (S.shown store.new) error.kind) }
    {
        Ok(run_erase(self, alloc, chunk, store, options)?)
    }

    /// Runs commands over a store. The replies are those of one plain array that the store means.
    ///
    /// The room for the replies is taken first. A refused command is answered, and the next ones run.
    ///
    /// # Errors
    /// An error says at which command, and after how many of its chunks. `ChunkDecode` names a chunk that the command
    /// met and whose value does not decode, and of which a read of a part finds not even that part; `Store` comes where
    /// the store failed, and `OutOfMemory` for want of memory. What the commands before did stands, and so do these
    /// chunks; and a damaged value stands until its chunk is erased.
    pub fn run_commands<S: Store>(
        &self,
        alloc: Global,
        commands: &[Command],
        store: &mut S,
        options: &CodecOptions,
    ) -> Result<Vec<Reply>, SessionError>
        ensures runs { RunsOn (described_shards self.now) (options_of options.now)
            (map command_of commands.now) (S.shown store.old) (S.shown store.new) (ended result) }
        // Where all accepted commands read, they cost what reading the regions of the chunks costs that they meet.
        ensures costs { CostsOfReads (documented_shards self.now) (options_of options.now)
            (map command_of commands.now) (S.shown store.old) (S.shown store.new) (ended result) }
        ensures told { IfErr result (λ error. TellsOfShards self.now
            (region_at (map command_of commands.now) error.at) (options_of options.now)
            (S.shown store.new) error.kind) }
        // Reads keep what a store says that its reading calls keep.
        ensures kept { AreReads (map command_of commands.now) → S.kept store.old store.new }
    {
        run_commands(self, alloc, commands, store, options)
    }
}
