//! A number for each closed type, by which its row is looked for.

ghost use Rattle.std.specs.Prelude.{◌≡◌, fold};
ghost use Rattle.au_type_texts.specs.Keys as keys;
ghost use Rattle.au_type_texts.specs.Keys.{key_of, list_key, place_key};
ghost use Rattle.au_type_texts.specs.Views.{closed_meaning, closed_meanings};
ghost use Rattle.au_lowering.specs.Mixing as spec;
ghost use Rattle.au_lowering.specs.Mixing.{type_mixed};

use au_base::IntKind;
use au_type_texts::Closed;
use au_types::DeclAt;

/// What the bits of a state are spread with: odd, and near 2^64 divided by the golden ratio.
const FACTOR: u64 = 11_400_714_819_323_198_485;

/// A number for a closed type: equal types have one, and two others seldom do.
pub fn mixed_type(of: &Closed) -> u64
    ensures { result ≡ type_mixed (closed_meaning of.now) }
{
    mix_type(0, of)
}

/// A state once a number is mixed in.
fn mix(state: u64, number: u32) -> u64
    ensures { result ≡ spec.mix state number }
{
    state.wrapping_mul(FACTOR).wrapping_add(u64::from(number))
}

/// A state once the key of a closed type is mixed in.
#[tactic(auto, using(au_type_texts::proofs::ClosedLemmas::closed_steps, std::proofs::lemmas::Grind::common_steps))]
#[cycle(mix_type)]
fn mix_type(state: u64, of: &Closed) -> u64
    ensures { result ≡ fold spec.mix state (key_of (closed_meaning of.now)) }
{
    match of {
        Closed::Unit => mix(state, 0),
        Closed::Bool => mix(state, 1),
        Closed::Text => mix(state, 2),
        Closed::Int(kind) => mix(mix(state, 7), kind_key(*kind)),
        Closed::Named { of, args } => mix_list(mix_place(state, *of), args),
        Closed::Read(to) => mix_type(mix(state, 3), to),
        Closed::Write(to) => mix_type(mix(state, 4), to),
    }
}

/// A state once those of closed types are mixed in, and what ends them.
#[cycle(mix_type)]
fn mix_list(state: u64, list: &Vec<Closed>) -> u64
    ensures { result ≡ fold spec.mix state (list_key (closed_meanings list.now.items)) }
{
    let mut made = state;
    for one in list {
        made = mix_type(made, one);
    }
    mix(made, 6)
}

/// A state once what a declared type begins with is mixed in.
fn mix_place(state: u64, at: DeclAt) -> u64
    ensures { result ≡ fold spec.mix state (place_key at) }
{
    let made = mix(mix(state, 5), u32::from(at.module));
    mix(made, at.decl)
}

/// The number of a kind of integers.
fn kind_key(kind: IntKind) -> u32
    ensures { result ≡ keys.kind_key kind }
{
    match kind {
        IntKind::Nat8 => 0,
        IntKind::Nat16 => 1,
        IntKind::Nat32 => 2,
        IntKind::Nat64 => 3,
        IntKind::Int8 => 4,
        IntKind::Int16 => 5,
        IntKind::Int32 => 6,
        IntKind::Int64 => 7,
        IntKind::Index => 8,
    }
}
