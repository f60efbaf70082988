//! Laws of records.

ghost use Rattle.std.specs.Prelude.{◌≡◌, ◌<◌, ◌-◌, List, ℕ, ◌++◌, length, Ok, Err, slice_index};
ghost use Rattle.edges.specs.declared.stop.Stop.{Stop};
ghost use Rattle.cluster_types.specs.declared.entry.Entry.{Entry};
ghost use Rattle.record_codec.specs.Spelling.{spelling, HasRecord};
ghost use Rattle.record_codec.specs.Reading.{entry_at};

/// The record of an entry is read as this entry, whatever follows it.
pub fn read_again()
    ensures { (e : Entry) (rest : List ℕ) → HasRecord e → entry_at (spelling e ++ rest) ≡ Ok (e, rest) }
{}

/// No record begins another, so an entry has one record, and a record is that of one entry.
pub fn one_spelling()
    ensures { (a b : Entry) (x y : List ℕ) → HasRecord a → HasRecord b → spelling a ++ x ≡ spelling b ++ y → (a ≡ b) × (x ≡ y) }
{}

/// What is read from octets has a record, and this record stands there.
pub fn spelled_so()
    ensures { (octets : List ℕ) (e : Entry) (rest : List ℕ) → ((i : ℕ) → slice_index octets i < 256) → entry_at octets ≡ Ok (e, rest)
        → (octets ≡ spelling e ++ rest) × HasRecord e }
{}

/// Where a record is cut short, the number of missing octets is told: with fewer of them it is still short.
pub fn still_short()
    ensures { (octets more : List ℕ) (missing : ℕ) → entry_at octets ≡ Err (Stop.Short missing) → length more < missing
        → entry_at (octets ++ more) ≡ Err (Stop.Short (missing - length more)) }
{}

/// Where no record can stand, none does, whatever octets follow.
pub fn still_bad()
    ensures { (octets more : List ℕ) → entry_at octets ≡ Err Stop.Bad → entry_at (octets ++ more) ≡ Err Stop.Bad }
{}
