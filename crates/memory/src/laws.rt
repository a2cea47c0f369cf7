//! Laws of memory, each the contract of a function that does nothing: its caller learns the law.

ghost use Rattle.std.specs.Prelude.{◌≡◌, ◌<◌, ◌≤◌, ◌⊎◌, ◌+◌, ◌^◌, ℕ, List, length, map};
ghost use Rattle.memory.specs.Access.{data_start, byte_at, put, AreBytes, NotIn};
ghost use Rattle.memory.specs.Access.{Size, Word, Access, spread, bytes_in, bytes_of, access_at, places_of, put_number};
ghost use Rattle.memory.specs.Access.{word_at};

/// A write leaves all other bytes: whatever is put at some places, each address that is none of them
/// holds what it held before.
pub fn writes_leave_other_bytes()
    ensures bytes { (text memory places bytes : List ℕ) (address : ℕ) → NotIn address places
        → byte_at text (put memory places bytes) address ≡ byte_at text memory address }
    ensures numbers { (text memory : List ℕ) (size : Size) (at n address : ℕ)
        → NotIn address (places_of (access_at size at)) → byte_at text (put_number memory size at n) address
        ≡ byte_at text memory address }
{}

/// A write keeps how many bytes of data there are.
pub fn writes_keep_the_size()
    ensures { (memory places bytes : List ℕ) → length (put memory places bytes) ≡ length memory }
{}

/// A number that is put in data lies at its places afterwards, and a word of 32 bits is read back; a
/// word that shares no byte with it stays.
pub fn a_number_lies_at_its_places()
    ensures bytes { (text memory : List ℕ) (size : Size) (at n : ℕ) → data_start ≤ at
        → at + bytes_in size ≤ data_start + length memory
        → map (byte_at text (put_number memory size at n)) (places_of (access_at size at)) ≡ bytes_of size n }
    ensures word { (text memory : List ℕ) (at n : ℕ) → data_start ≤ at → at + 4 ≤ data_start + length memory
        → n < 2 ^ 32 → word_at text (put_number memory Word at n) at ≡ n }
    ensures others { (text memory : List ℕ) (at n other : ℕ) → (other + 4 ≤ at) ⊎ (at + 4 ≤ other)
        → word_at text (put_number memory Word at n) other ≡ word_at text memory other }
{}

/// Data stay bytes: the numbers that are put are split into bytes, and bytes that are put leave bytes.
pub fn writes_keep_bytes()
    ensures data { (memory places bytes : List ℕ) → AreBytes memory → AreBytes bytes
        → AreBytes (put memory places bytes) }
    ensures numbers { (accesses : List Access) (numbers : List ℕ) → AreBytes (spread accesses numbers) }
{}
