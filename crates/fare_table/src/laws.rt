//! Theorems about fare tables, each the contract of a function that does nothing.
ghost use Rattle.fare_table.specs.Paying.{Gives, NamesRider, Pays, PaysOn};
ghost use Rattle.fare_table.specs.{TableMeaning.meaning_of_tree, TextRanges.RangeGives};
ghost use Rattle.fare_table.specs.{TextRanges.RangeHas, Transfers.ListsPair};
ghost use Rattle.std.specs.Prelude.{◌≡◌, ◌↔◌, ℕ, true, List, None, Ok, Some, position};
ghost use Rattle.tariffs.specs.Fares.{class_of, mode_in, price_of, ride_terms, terms_at};
ghost use Rattle.tariffs.specs.{Fares.transfer_terms, Names.same_name, TableMeaning.TableMeaning};
ghost use Rattle.tariffs.specs.{Transfers.has_pair, declared.terms.Terms.Terms};
ghost use Rattle.toml.specs.Data.{Members};

/// A table permits a transfer between two modes exactly if its text lists the pair of their names,
/// and the transfer pays what each such pair says.
pub fn permitted_pairs_are_listed()
    ensures pairs { (tree : Members) (meaning : TableMeaning) (from to : ℕ)
        → meaning_of_tree tree ≡ Ok meaning
        → (has_pair meaning.transfers from to ≡ true) ↔ ListsPair meaning.modes tree from to }
    ensures prices { (tree : Members) (meaning : TableMeaning) (from to : ℕ)
        → meaning_of_tree tree ≡ Ok meaning → (listed : ListsPair meaning.modes tree from to)
        → price_of meaning from to ≡ listed.pair.1 }
{}

/// A validator's mode is that of the only element of the text's `validators` that has it, if any.
pub fn modes_are_of_ranges()
    ensures some { (tree : Members) (meaning : TableMeaning) (validator mode : ℕ)
        → meaning_of_tree tree ≡ Ok meaning
        → (mode_in meaning validator ≡ Some mode)
        ↔ RangeGives meaning.modes tree validator mode }
    ensures none { (tree : Members) (meaning : TableMeaning) (validator : ℕ)
        → meaning_of_tree tree ≡ Ok meaning
        → (mode_in meaning validator ≡ None) ↔ ((index : ℕ) → ¬ RangeHas tree validator index) }
    ensures one { (tree : Members) (meaning : TableMeaning) (validator index index' : ℕ)
        → meaning_of_tree tree ≡ Ok meaning → RangeHas tree validator index
        → RangeHas tree validator index' → index ≡ index' }
{}

/// A token's terms are those of the class of its only key in `riders`, else of the default class.
pub fn terms_are_of_classes()
    ensures terms { (tree : Members) (meaning : TableMeaning) (token : List ℕ) (terms : Terms)
        → meaning_of_tree tree ≡ Ok meaning
        → (terms_at meaning token ≡ terms) ↔ Pays tree token terms }
    ensures one { (tree : Members) (meaning : TableMeaning) (token key key' class class' : List ℕ)
        → meaning_of_tree tree ≡ Ok meaning → NamesRider tree token key class
        → NamesRider tree token key' class' → key ≡ key' }
{}

/// A ride costs what the `fares` of the token's class say of the mode's name, else the class's own
/// fare, within its limits, and gives the transfers that the class says, else one within two hours.
pub fn rides_are_of_classes()
    ensures pays { (tree : Members) (meaning : TableMeaning) (token name : List ℕ) (mode : ℕ)
        → meaning_of_tree tree ≡ Ok meaning
        → position (same_name name) meaning.modes ≡ Some mode
        → PaysOn tree token name (ride_terms meaning (class_of meaning token) mode) }
    ensures gives { (tree : Members) (meaning : TableMeaning) (token : List ℕ)
        → meaning_of_tree tree ≡ Ok meaning
        → Gives tree token (transfer_terms meaning (class_of meaning token)) }
{}
