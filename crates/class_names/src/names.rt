//! The classes of riders, as the text of a fare table names them.

ghost use Rattle.class_names.specs.ClassFaults.{HasPlainClasses, IsFaultOf, IsWrongAt};
ghost use Rattle.class_names.specs.Classes.{AreTrees, are_plain, class_at, default_in, first_class};
ghost use Rattle.class_names.specs.Classes.{has_plain_classes, is_bare, is_plain_name};
ghost use Rattle.class_names.specs.{Classes.is_plain_or_none, Classes.riders_in, Names.HasClasses};
ghost use Rattle.class_names.specs.Names.{HasRiders, NamesOf, class_by, class_in, rider_by};
ghost use Rattle.hex.specs.Hex.{decode_sized};
ghost use Rattle.std.specs.{List.list_all, Option.option_and_then};
ghost use Rattle.std.specs.Prelude.{◌≡◌, ◌≢◌, ◌&&◌, ◌||◌, ◌==◌, ℕ, List, IfOk, IfErr, OnOk, Some};
ghost use Rattle.std.specs.Prelude.{◌+◌, ◌++◌, ◌∷◌, [], All, length, map, IsUtf8, None, codes};
ghost use Rattle.std.specs.Prelude.{false, if◌then◌else◌, nat_le, option_map, string_bytes, true};
ghost use Rattle.std.specs.Result.{result_ok};
ghost use Rattle.toml.specs.Data.{Members, as_str, as_table, get_member, same_key};
ghost use Rattle.toml.specs.{Parse.parse_document, View.table_view, View.view};

use hex::FromHex;
use std::alloc::{AllocError, Global};
use std::collections::BTreeMap;
use tariffs::FareTable;
use toml::{Table, Value};

const MAX_NAME_BYTES: usize = 64;

/// Why the names of classes cannot be had.
#[derive(Clone, Copy, Debug, PartialEq, Eq)]
pub enum ClassFault {
    /// The text is not TOML, or names no default class.
    Text,
    /// A name cannot be in a ledger: not 1 to 64 letters, digits, hyphens and low lines.
    Name,
    NoMemory,
}

impl From<AllocError> for ClassFault {
    ghost use Rattle.class_names.specs.declared.names.ClassFault.TheVariants.{
      NoMemory as ForMemory,
    };

    ghost from_gives = { λ _ fault. fault ≡ ForMemory };

    fn from(_refused: AllocError) -> Self {
        ClassFault::NoMemory
    }
}

/// Why the names of classes of several texts cannot be had.
#[derive(Clone, Copy, Debug, PartialEq, Eq)]
pub struct WrongNames {
    /// The index of the text.
    pub position: usize,
    /// Why.
    pub fault: ClassFault,
}

#[derive(Drop)]
struct TextNames {
    riders: BTreeMap<[u8; 16], String>,
    /// The class of all others.
    usual: String,
}

#[derive(Drop)]
struct DatedNames {
    /// The moment, in milliseconds since 1970-01-01T00:00Z.
    from: u64,
    names: TextNames,
}

/// The names of riders' classes: by the text that is valid first, and by those that follow it.
#[derive(Drop)]
pub struct ClassNames {
    first: TextNames,
    later: Vec<DatedNames>,
}

fn is_bare(byte: u8) -> bool
    ensures { result ≡ is_bare byte }
{
    (b'a' <= byte && byte <= b'z')
        || ((b'A' <= byte && byte <= b'Z')
            || ((b'0' <= byte && byte <= b'9') || (byte == b'-' || byte == b'_')))
}

fn are_bare(bytes: &[u8]) -> bool
    ensures { result ≡ list_all is_bare bytes.now }
{
    let mut rest = bytes;
    while let Some((first, trailing)) = rest.split_first() {
        if !is_bare(*first) {
            return false;
        }
        rest = trailing;
    }
    true
}

fn is_plain(name: &str) -> bool
    ensures { result ≡ is_plain_name name.now }
{
    1 <= name.len() && (name.len() <= MAX_NAME_BYTES && are_bare(name.as_bytes()))
}

fn plain(alloc: Global, name: &str) -> Result<String, ClassFault>
    ensures name { IfOk result (λ copy. string_bytes copy ≡ name.now) }
    ensures right { OnOk result (is_plain_name name.now ≡ true) }
    ensures fault { IfErr result (λ fault. fault ≡ ClassFault.Name
        → is_plain_name name.now ≡ false) }
    ensures no_text { IfErr result (λ fault. fault ≢ ClassFault.Text) }
{
    if !is_plain(name) {
        return Err(ClassFault::Name);
    }
    Ok(String::from_str(alloc, name)?)
}

fn token_of(digits: &str) -> Option<[u8; 16]>
    ensures { result ≡ result_ok (decode_sized digits.now 16) }
{
    match <[u8; 16] as FromHex>::from_hex(digits) {
        Ok(token) => Some(token),
        Err(_) => None,
    }
}

fn at<'a>(table: &'a Table, key: &str) -> Option<&'a Value>
    ensures { option_map (λ v. view v.now) result ≡ get_member key.now (table_view table.now) }
{
    table.get(key)
}

fn riders_of<'a>(tree: &'a Table) -> Option<&'a Table>
    ensures { option_map (λ m. table_view m.now) result
        ≡ option_and_then as_table (get_member (codes "riders") (table_view tree.now)) }
{
    at(tree, "riders")?.as_table()
}

fn default_of<'a>(tree: &'a Table) -> Option<&'a str>
    ensures { option_map (λ s. s.now) result ≡ default_in (table_view tree.now) }
{
    at(tree, "default_class")?.as_str()
}

fn keep(
    riders: &mut BTreeMap<[u8; 16], String>,
    token: [u8; 16],
    class: String,
) -> Result<(), AllocError>
    ensures { OnOk result ((other : List ℕ) → rider_by riders.new other
        ≡ first_class (rider_by riders.old other)
        (if same_key token other then Some (string_bytes class) else None)) }
{
    if riders.contains_key(&token) {
        return Ok(());
    }
    riders.insert(token, class)?;
    Ok(())
}

fn add(
    alloc: Global,
    riders: &mut BTreeMap<[u8; 16], String>,
    key: &str,
    value: &Value,
) -> Result<(), ClassFault>
    ensures kept { OnOk result ((other : List ℕ) → rider_by riders.new other
        ≡ first_class (rider_by riders.old other) (class_at key.now (view value.now) other)) }
    ensures plain { OnOk result (is_plain_or_none (as_str (view value.now)) ≡ true) }
    ensures fault { IfErr result (λ fault. fault ≡ ClassFault.Name
        → is_plain_or_none (as_str (view value.now)) ≡ false) }
    ensures no_text { IfErr result (λ fault. fault ≢ ClassFault.Text) }
{
    let Some(name) = value.as_str() else {
        return Ok(());
    };
    let class = plain(alloc, name)?;
    let Some(token) = token_of(key) else {
        return Ok(());
    };
    keep(riders, token, class)?;
    Ok(())
}

fn classes_of(alloc: Global, keys: &Table) -> Result<BTreeMap<[u8; 16], String>, ClassFault>
    ensures classes { IfOk result (λ riders. HasRiders (table_view keys.now) riders) }
    ensures plain { OnOk result (are_plain (table_view keys.now) ≡ true) }
    ensures fault { IfErr result (λ fault. fault ≡ ClassFault.Name
        → are_plain (table_view keys.now) ≡ false) }
    ensures no_text { IfErr result (λ fault. fault ≢ ClassFault.Text) }
{
    let mut riders = BTreeMap::new(alloc);
    for (key, value) in keys {
        add(alloc, &mut riders, key.as_str(), value)?;
    }
    Ok(riders)
}

fn rider_classes(alloc: Global, tree: &Table) -> Result<BTreeMap<[u8; 16], String>, ClassFault>
    ensures classes { IfOk result (λ riders. HasRiders (riders_in (table_view tree.now)) riders) }
    ensures plain { OnOk result (are_plain (riders_in (table_view tree.now)) ≡ true) }
    ensures fault { IfErr result (λ fault. fault ≡ ClassFault.Name
        → are_plain (riders_in (table_view tree.now)) ≡ false) }
    ensures no_text { IfErr result (λ fault. fault ≢ ClassFault.Text) }
{
    match riders_of(tree) {
        Some(keys) => classes_of(alloc, keys),
        None => Ok(BTreeMap::new(alloc)),
    }
}

fn names_of(alloc: Global, text: &[u8]) -> Result<TextNames, ClassFault>
    ensures classes { IfOk result (λ names. (tree : Members)
        × (parse_document text.now ≡ Some tree) × NamesOf names tree) }
    ensures plain { OnOk result ((tree : Members)
        → parse_document text.now ≡ Some tree → has_plain_classes tree ≡ true) }
    ensures fault { IfErr result (λ fault. fault ≡ ClassFault.Name → (tree : Members)
        × (parse_document text.now ≡ Some tree) × (has_plain_classes tree ≡ false)) }
    ensures text { IfErr result (λ fault. fault ≡ ClassFault.Text → IsUtf8 text.now
        → (tree : Members) → parse_document text.now ≡ Some tree → default_in tree ≡ None) }
{
    let tree = match toml::table_from_slice(alloc, text) {
        Ok(tree) => tree,
        Err(error) => {
            return Err(if error.is_memory() {
                ClassFault::NoMemory
            } else {
                ClassFault::Text
            });
        }
    };
    let Some(name) = default_of(&tree) else {
        return Err(ClassFault::Text);
    };
    let usual = plain(alloc, name)?;
    let riders = rider_classes(alloc, &tree)?;
    Ok(TextNames { riders, usual })
}

impl TextNames {
    fn class_of(&self, token: &[u8; 16]) -> &str
        ensures { result.now ≡ class_in self.now token.now }
    {
        match self.riders.get(token) {
            Some(class) => class.as_str(),
            None => self.usual.as_str(),
        }
    }
}

fn next_names(
    alloc: Global,
    names: ClassNames,
    from: u64,
    position: usize,
    text: &[u8],
) -> Result<ClassNames, WrongNames>
    ensures classes { IfOk result (λ all. (other : Members)
        × (parse_document text.now ≡ Some other)
        × ((tree : Members) (later : List (ℕ × Members)) → HasClasses names tree later
        → HasClasses all tree (later ++ (from, other) ∷ []))) }
    ensures plain { OnOk result ((tree : Members)
        → parse_document text.now ≡ Some tree → has_plain_classes tree ≡ true) }
    ensures position { IfErr result (λ wrong. wrong.position ≡ position) }
    ensures fault { IfErr result (λ wrong. IsFaultOf text.now wrong.fault) }
{
    let next = match ClassNames::read(alloc, text) {
        Ok(next) => next,
        Err(fault) => return Err(WrongNames { position, fault }),
    };
    match names.followed_by(from, next) {
        Ok(all) => Ok(all),
        Err(_) => Err(WrongNames {
            position,
            fault: ClassFault::NoMemory,
        }),
    }
}

impl ClassNames {
    /// The names of the classes in the text of a fare table that no other follows. If the text is
    /// not one that is read as a fare table, a token has the class of the first key that names it.
    pub fn read(alloc: Global, text: &[u8]) -> Result<ClassNames, ClassFault>
        ensures classes { IfOk result (λ names. (tree : Members)
            × (parse_document text.now ≡ Some tree) × HasClasses names tree []) }

        // A name that cannot be in a ledger is reported exactly if the text has one.
        ensures plain { OnOk result ((tree : Members)
            → parse_document text.now ≡ Some tree → has_plain_classes tree ≡ true) }
        ensures fault { IfErr result (λ fault. fault ≡ ClassFault.Name → (tree : Members)
            × (parse_document text.now ≡ Some tree) × (has_plain_classes tree ≡ false)) }

        // The text fault comes only if the text is not TOML, or names no default class.
        ensures text { IfErr result (λ fault. fault ≡ ClassFault.Text → IsUtf8 text.now
            → (tree : Members) → parse_document text.now ≡ Some tree → default_in tree ≡ None) }
    {
        let first = names_of(alloc, text)?;
        Ok(ClassNames {
            first,
            later: Vec::new(alloc),
        })
    }

    /// These names, and those of a text that is valid from the moment on, after all texts before
    /// it.
    pub fn followed_by(mut self, from: u64, next: ClassNames) -> Result<ClassNames, AllocError>
        ensures { IfOk result (λ names. (tree other : Members) (later : List (ℕ × Members))
            → HasClasses self tree later → HasClasses next other []
            → HasClasses names tree (later ++ (from, other) ∷ [])) }
    {
        self.later.push(DatedNames {
            from,
            names: next.first,
        })?;
        Ok(self)
    }

    /// The names of the classes in the texts that follow one another, of which these are the fares.
    /// The error is the first text's that has one.
    pub fn of_texts(
        alloc: Global,
        fares: &FareTable,
        texts: &[Vec<u8>],
    ) -> Result<ClassNames, WrongNames>
        requires { length texts.now ≡ length fares.now.later + 1 }
        ensures classes { IfOk result (λ names. (tree : Members) × (later : List (ℕ × Members))
            × AreTrees fares.now (map (λ t. t.items) texts.now) tree later
            × HasClasses names tree later) }
        ensures plain { OnOk result (All HasPlainClasses (map (λ t. t.items) texts.now)) }
        ensures fault { IfErr result (IsWrongAt (map (λ t. t.items) texts.now)) }
    {
        let mut names = match ClassNames::read(alloc, &texts[0]) {
            Ok(names) => names,
            Err(fault) => return Err(WrongNames { position: 0, fault }),
        };
        for position in 0..fares.later_len() {
            let (from, _tariff) = fares.later(position);
            names = match next_names(alloc, names, from, position + 1, &texts[position + 1]) {
                Ok(more) => more,
                Err(wrong) => return Err(wrong),
            };
        }
        Ok(names)
    }

    /// The class of a token's rider at the moment, by the text that is valid then.
    pub fn class_of(&self, moment: u64, token: &[u8; 16]) -> &str
        ensures { result.now ≡ class_by self.now moment token.now }
    {
        let mut valid = &self.first;
        for dated in &self.later {
            if moment < dated.from {
                return valid.class_of(token);
            }
            valid = &dated.names;
        }
        valid.class_of(token)
    }
}
