//! Single commands on an opened array.

ghost use Rattle.std.specs.Prelude.{[], ◌∷◌, Some, None, IfErr};
ghost use Rattle.zarrs_codec_traits.specs.Prelude.{raw_of, region as region_of_subset, options_of};
ghost use Rattle.zarr_model.specs.Prelude.{read, write, erase};
ghost use Rattle.zarr_array.specs.Told.{TellsWhy};
ghost use Rattle.zarr_array.specs.Ended.{ended_one};
ghost use Rattle.zarr_array.specs.Answers.{AnswersRefused, AnswersRead, IsAlone, StopsWrite};
ghost use Rattle.zarr_array.specs.Runs.{Runs};
ghost use Rattle.zarr_array.specs.Taken.{TakesAlone};

use crate::commands::{run_erase, run_read, run_write};
use crate::error::{SessionError, SessionErrorKind};
use crate::open::OpenArray;
use std::alloc::Global;
use zarr_array_boxes::Reply;
use zarrs_array_subset::ArraySubset;
use zarrs_codec_array_bytes::ArrayBytes;
use zarrs_codec_error::CodecOptions;
use zarrs_storage::Store;

impl OpenArray {
    ghost use Rattle.zarr_array.specs.OpenArray.{documented, described_array};

    /// Reads a region of the array: its elements in row-major order, or why it is refused.
    ///
    /// Each chunk that the region meets is asked for once, in row-major order. For elements of one size the room for
    /// all of them is taken before the first chunk is asked for; for others it grows with what the chunks hold.
    ///
    /// # Errors
    /// `ChunkDecode` with the key of a chunk that the region meets and whose value does not decode, `Store` where the
    /// store failed, or `OutOfMemory`. The command is number 0.
    #[tactic(auto, using(crate::proofs::ChunkCosts::by_chunks))]
    pub fn read<S: Store>(
        &self,
        alloc: Global,
        region: &ArraySubset,
        store: &mut S,
        options: &CodecOptions,
    ) -> Result<Reply, SessionError>
        ensures runs { Runs (described_array self.now) (options_of options.now)
            (read (region_of_subset region.now) ∷ [])
            (S.shown store.old) (S.shown store.new) (ended_one result) }
        ensures taken { TakesAlone (documented self.now) (options_of options.now)
            (read (region_of_subset region.now) ∷ [])
            (S.shown store.old) (S.shown store.new) (ended_one result) }
        // A refusal is an answer, and no reply has an element of 2^32 bytes or more.
        ensures read { AnswersRead (described_array self.now) (region_of_subset region.now)
            (S.shown store.old) (S.shown store.new) result }
        ensures begun { IfErr result IsAlone }
        ensures kept { S.kept store.old store.new }
        ensures told { IfErr result (λ error. TellsWhy (Some (region_of_subset region.now))
            (documented self.now) (options_of options.now) (S.shown store.new) error.kind) }
    {
        Ok(run_read(&self.parts, alloc, region, &mut None, store, options)?)
    }

    /// Writes elements to a region of the array, in its row-major order: done, or why it is refused. The bytes are of
    /// the data type's kind: elements of one size one behind another, the lowest byte of a whole number first; texts
    /// and byte strings between offsets; optional elements under a mask.
    ///
    /// Each chunk that the region meets is asked for once, in row-major order, decoded whole, and stored anew; or its
    /// key is erased where all its elements are the fill value and the options do not have such chunks stored.
    ///
    /// # Errors
    /// `ChunkDecode` with the key of a chunk that the region meets and whose old value does not decode, also where the
    /// region covers all of it, `Store` where the store failed, or `OutOfMemory`. The command is number 0, and the
    /// error says how many chunks were finished. These stay written, and a damaged value stands.
    #[tactic(auto, using(crate::proofs::ChunkCosts::by_chunks))]
    pub fn write<S: Store>(
        &self,
        alloc: Global,
        region: &ArraySubset,
        bytes: &ArrayBytes<'_>,
        store: &mut S,
        options: &CodecOptions,
    ) -> Result<Reply, SessionError>
        ensures runs { Runs (described_array self.now) (options_of options.now)
            (write (region_of_subset region.now) (raw_of bytes.now) ∷ [])
            (S.shown store.old) (S.shown store.new) (ended_one result) }
        ensures taken { TakesAlone (documented self.now) (options_of options.now)
            (write (region_of_subset region.now) (raw_of bytes.now) ∷ [])
            (S.shown store.old) (S.shown store.new) (ended_one result) }
        ensures answered { AnswersRefused (described_array self.now)
            (write (region_of_subset region.now) (raw_of bytes.now) ∷ []) result }
        // An error that is not the store's leaves the chunks before it changed, and all other keys as they were.
        ensures begun { IfErr result (StopsWrite (described_array self.now) (options_of options.now)
            (region_of_subset region.now) (raw_of bytes.now) (S.shown store.old) (S.shown store.new)) }
        ensures told { IfErr result (λ error. TellsWhy None (documented self.now)
            (options_of options.now) (S.shown store.new) error.kind) }
    {
        Ok(run_write(&self.parts, alloc, region, bytes, &mut None, store, options)?)
    }

    /// Erases the chunk of these indices, so that all its elements are the fill value: done, or why it is refused.
    ///
    /// Nothing is read.
    ///
    /// # Errors
    /// `Store` where the store failed, or `OutOfMemory`. The command is number 0.
    #[tactic(auto, using(crate::proofs::ChunkCosts::by_chunks))]
    pub fn erase<S: Store>(
        &self,
        alloc: Global,
        chunk: &[u64],
        store: &mut S,
        options: &CodecOptions,
    ) -> Result<Reply, SessionError>
        ensures runs { Runs (described_array self.now) (options_of options.now)
            (erase chunk.now ∷ [])
            (S.shown store.old) (S.shown store.new) (ended_one result) }
        ensures taken { TakesAlone (documented self.now) (options_of options.now)
            (erase chunk.now ∷ [])
            (S.shown store.old) (S.shown store.new) (ended_one result) }
        ensures answered { AnswersRefused (described_array self.now)
            (erase chunk.now ∷ []) result }
        ensures begun { IfErr result IsAlone }
        ensures told { IfErr result (λ error. TellsWhy None (documented self.now)
            (options_of options.now) (S.shown store.new) error.kind) }
    {
        Ok(run_erase(&self.parts, alloc, chunk, store, options)?)
    }
}
