//! The bytes that commands take of a store where the codec `bytes` stands alone.
ghost use Rattle.std.specs.Prelude.{◌≡◌, ◌≤◌, ◌^◌, ◌-◌, ℕ, None, List, [], ◌∷◌, ◌++◌, length, filter};
ghost use Rattle.std.specs.List.{sum_by};
ghost use Rattle.zarr_model.specs.Prelude.{Region, count, contains, tuples, overlap_of, ArrayBytes, Content, read, write, bytes_under, present_in, chunks_meeting, Element, Array, Options, WhollyMeans, Command, Description, layout, Answer, ServesWhole, Shown, TakesNeeded, ErasesKeys, read_bytes, write_bytes};

/// What a command needs is what it needs of each of its chunks: of one that is read in part what is shared.
pub fn needed_bytes_by_chunk()
    ensures read { (description : Description) (region : Region) (store : Content)
        → bytes_under description None (read region) (present_in description store)
        ≡ sum_by (read_bytes description region store) (chunks_meeting description.grid region) }
    ensures write { (description : Description) (region : Region) (bytes : ArrayBytes)
        (store : Content) → bytes_under description None (write region bytes)
        (present_in description store)
        ≡ sum_by (write_bytes description store) (chunks_meeting description.grid region) }
    ensures shared { (region box : Region) → length region ≡ length box
        → length (filter (contains box) (tuples region)) ≡ count (overlap_of region box) }
{}

/// Commands take what they need where each does so after those before it.
pub fn needed_bytes_add_up()
    ensures none { (description : Description) (options : Options) (store : Shown)
        → store.taken ≤ 2 ^ 64 - 1 → TakesNeeded description options [] store store }
    ensures more { (description : Description) (options : Options) (commands : List Command)
        (command : Command) (before mid now : Shown)
        → ((array : Array Element) → WhollyMeans (layout description options) before.content array
        → (answers : List Answer) × ServesWhole description options commands before.content
        mid.content answers)
        → ErasesKeys description options commands before.content mid.content
        → TakesNeeded description options commands before mid
        → TakesNeeded description options (command ∷ []) mid now
        → TakesNeeded description options (commands ++ command ∷ []) before now }
    ensures erased { (description : Description) (options : Options) (commands : List Command)
        (command : Command) (before mid now : Shown)
        → ErasesKeys description options commands before.content mid.content
        → ErasesKeys description options (command ∷ []) mid.content now.content
        → ErasesKeys description options (commands ++ command ∷ []) before.content now.content }
{}
