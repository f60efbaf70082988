//! Laws of blocks and codes. The functions do nothing: their contracts are what is proved.

ghost use Rattle.std.specs.Prelude.{◌≡◌, ◌<◌, ℕ, ℤ, List, true, flat_map};
ghost use Rattle.std.specs.List.{range_with_len};
ghost use Rattle.arith_eval.specs.Names.{Environment};
ghost use Rattle.arith_syntax.specs.Tree.{IsName};
ghost use Rattle.array_maps.specs.Names.{is_name};
ghost use Rattle.array_maps.specs.Blocks.{block_of};
ghost use Rattle.array_maps.specs.Running.{AreScattered, Scatters};

/// The blocks of a list, joined, are the list.
pub fn blocks_joined<T>()
    ensures { (items : List T) (parts : ℕ) → 0 < parts → flat_map (block_of items parts) (range_with_len 0 parts) ≡ items }
{}

/// What passes the test of a name is a name of the grammar, and the other way round.
pub fn names_tested()
    ensures sound { (x : List ℕ) → is_name x ≡ true → IsName x }
    ensures complete { (x : List ℕ) → IsName x → is_name x ≡ true }
{}

/// Where numbers are scattered, the code of a part, run from any names, leaves each element of its block with its value,
/// and every other name as it was.
pub fn scattered()
    ensures { (name : List ℕ) (values : List ℤ) (parts part : ℕ) (codes : List (List ℕ)) → AreScattered name values parts codes → part < parts → (before : Environment) → Scatters name values parts part before }
{}
