//! What commands leave in a store some of whose values do not decode, and in one that failed while its key lines were
//! set; and which damage a read of a part passes over.
ghost use Rattle.std.specs.Prelude.{◌≡◌, ◌⊎◌, ℕ, true, List, [], ◌∷◌, ◌++◌, length, map, get_or, slice_get, Some, IsSome};
ghost use Rattle.zarr_model.specs.Prelude.{Region, ends_within, count, count_of, whole, place, tuples, Element, null, Options, Content, chunk_content, Command, read, Description, layout, command_chunks, CoversShape, KeepsDamage, passes_over, SeesNoDamage};
ghost use Rattle.zarr_model.specs.LeavesLaws.{EachStoreIsWithout, HonestIsMended, RanIsMended, NoneRan, UnchangedRan, WriteRan, EraseRan, RunsJoin, AnswersByMeaning, ChangesStay, UnchangedIsLeft, ChangesAreLeft, EndsLift, HonestIsLeft, LeftByChunk, ReadHasMet, UndecodedIsMet, KeyLinesSet};

/// A store without some chunks has none of their keys, and else the same.
pub fn store_without_chunks()
    ensures { EachStoreIsWithout }
{}

/// Over an honest store nothing is left out.
pub fn honest_is_mended()
    ensures { HonestIsMended }
{}

/// After commands that ran, the damage that still stands is all that is there.
pub fn ran_is_mended()
    ensures { RanIsMended }
{}

/// A list of no commands ran, over any store.
pub fn none_ran()
    ensures { NoneRan }
{}

/// A refused command or a read ran where it left the content as it was and answers as the array does.
pub fn unchanged_ran()
    ensures { UnchangedRan }
{}

/// A write ran where all its chunks were changed.
pub fn write_ran()
    ensures { WriteRan }
{}

/// An erase ran where its chunk's key is absent then, whatever stood there.
pub fn erase_ran()
    ensures { EraseRan }
{}

/// Commands that ran, and then more, are commands that ran.
pub fn runs_join()
    ensures { RunsJoin }
{}

/// Their answers are those of each array that the store means without its damage.
pub fn answers_by_meaning()
    ensures { AnswersByMeaning }
{}

/// A read that meets no damage reads chunks of the array that the store means without it.
pub fn read_has_met()
    ensures { ReadHasMet }
{}

/// Where no damage is met, no command ends at a chunk that does not decode.
pub fn undecoded_is_met()
    ensures { UndecodedIsMet }
{}

/// A command that ended at a chunk is cut short there: those before are changed, and it is old, new or absent.
pub fn changes_are_left()
    ensures { ChangesAreLeft }
{}

/// A command that ended between two chunks is cut short there.
pub fn changes_stay()
    ensures { ChangesStay }
{}

/// A command that changes nothing is cut short at each place.
pub fn unchanged_is_left()
    ensures { UnchangedIsLeft }
{}

/// The end of a command, after commands that ran, is that of the whole list.
pub fn ends_lift()
    ensures { EndsLift }
{}

/// Over an honest store what is left is an array that was cut short.
pub fn honest_is_left()
    ensures { HonestIsLeft }
{}

/// A chunk that is no damage any more has the same content where the damage is left out.
pub fn left_by_chunk()
    ensures { LeftByChunk }
{}

/// Key lines are set one after another.
pub fn key_lines_set()
    ensures { (entries : List (List ℕ × List ℕ)) → KeyLinesSet entries }
{}

/// A list of a part of a shape is that part of some list of the shape.
pub fn part_has_list()
    ensures { (shape : List ℕ) (region : Region) (part : List Element)
        → ends_within region shape ≡ true → length part ≡ count region
        → (list : List Element) × (length list ≡ count_of shape)
        × (map (λ tuple. get_or list (place (whole shape) tuple) null) (tuples region) ≡ part) }
{}

/// What commands that went through have seen: nothing damaged but what reads of parts pass over.
pub fn damage_seen_adds_up()
    ensures none { (description : Description) (options : Options) (store : Content)
        → SeesNoDamage description options [] store }
    ensures read { (description : Description) (options : Options) (region : Region)
        (store : Content) → ((k : ℕ) (chunk : List ℕ)
        → slice_get (command_chunks description (read region)) k ≡ Some chunk
        → IsSome (chunk_content (layout description options) store chunk)
        ⊎ (passes_over description options store (read region) chunk ≡ true))
        → SeesNoDamage description options (read region ∷ []) store }
    ensures more { (description : Description) (options : Options)
        → CoversShape description.shape description.grid → (commands more : List Command)
        (old mid : Content) → KeepsDamage description options commands old mid
        → SeesNoDamage description options commands old
        → SeesNoDamage description options more mid
        → SeesNoDamage description options (commands ++ more) old }
{}
