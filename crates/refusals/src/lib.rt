// Every refusal under one type, with its number and its place, for users: docs/REFERENCE.md has the table.
#![tactic(auto)]

ghost use Rattle.std.specs.Prelude.{◌≡◌};
ghost use Rattle.refusals.specs.Refusal.{number_of, place_of};

// Why a call refuses, by rising number. A number in a case is the place: a mechanism, a check, for GammaNotFinite an index of the flat list
// of gammas, and of a text its line or shot. No call gives yet: SeedsLength, ObservableTooLarge, and all from DroppedWithOthers on.
#[derive(Clone, Copy, Debug, PartialEq, Eq)]
pub enum Refusal {
    SizeAboveLimit,
    ModelListLength,
    BadDetectorOffsets,
    BadPrior(usize),
    DetectorOutOfRange(usize),
    DetectorRepeated(usize),
    NoSuchGraph,
    BadProbability(usize),
    BadClip,
    BadAlpha,
    BadGamma0,
    BadIterations,
    TooManyLegs,
    BadLegIterations,
    BadGammaInterval,
    BadStop,
    NoGammaSets,
    GammaSetsLength,
    GammaNotFinite(usize),
    SyndromeLength,
    SyndromeNotBinary(usize),
    LentListLength,
    OrderNotEachOnce,
    OrderExchanged(usize),
    StateNotFinite,
    SeedsLength,
    ShotTooLarge,
    ObservableTooLarge(usize),
    TooManyStores,
    NonFinite(usize),
    CutRecord,
    UnknownKind,
    PayloadLength,
    ShotTooEarly,
    BeyondRoom,
    BadSchedule,
    DroppedWithOthers,
    LineNotInSubset(usize),
    ConstructLeftOut(usize),
    NumberOutsideLimits(usize),
    ForeignCharacter(usize),
    LineLength(usize),
    CutShot(usize),
    FillingBitSet(usize),
    AlistMalformed,
    AlistDegree,
    AlistNumber,
    AlistDisagrees,
}

// The number of a refusal.
pub fn number_of(r: Refusal) -> usize
    ensures { result ≡ number_of r }
{
    match r {
        Refusal::SizeAboveLimit => 1,
        Refusal::ModelListLength => 2,
        Refusal::BadDetectorOffsets => 3,
        Refusal::BadPrior(_) => 4,
        Refusal::DetectorOutOfRange(_) => 5,
        Refusal::DetectorRepeated(_) => 6,
        Refusal::NoSuchGraph => 7,
        Refusal::BadProbability(_) => 8,
        Refusal::BadClip => 9,
        Refusal::BadAlpha => 10,
        Refusal::BadGamma0 => 11,
        Refusal::BadIterations => 12,
        Refusal::TooManyLegs => 13,
        Refusal::BadLegIterations => 14,
        Refusal::BadGammaInterval => 15,
        Refusal::BadStop => 16,
        Refusal::NoGammaSets => 17,
        Refusal::GammaSetsLength => 18,
        Refusal::GammaNotFinite(_) => 19,
        Refusal::SyndromeLength => 20,
        Refusal::SyndromeNotBinary(_) => 21,
        Refusal::LentListLength => 22,
        Refusal::OrderNotEachOnce => 23,
        Refusal::OrderExchanged(_) => 24,
        Refusal::StateNotFinite => 25,
        Refusal::SeedsLength => 26,
        Refusal::ShotTooLarge => 27,
        Refusal::ObservableTooLarge(_) => 28,
        Refusal::TooManyStores => 29,
        Refusal::NonFinite(_) => 30,
        Refusal::CutRecord => 40,
        Refusal::UnknownKind => 41,
        Refusal::PayloadLength => 42,
        Refusal::ShotTooEarly => 43,
        Refusal::BeyondRoom => 44,
        Refusal::BadSchedule => 45,
        Refusal::DroppedWithOthers => 46,
        Refusal::LineNotInSubset(_) => 50,
        Refusal::ConstructLeftOut(_) => 51,
        Refusal::NumberOutsideLimits(_) => 52,
        Refusal::ForeignCharacter(_) => 55,
        Refusal::LineLength(_) => 56,
        Refusal::CutShot(_) => 57,
        Refusal::FillingBitSet(_) => 58,
        Refusal::AlistMalformed => 60,
        Refusal::AlistDegree => 61,
        Refusal::AlistNumber => 62,
        Refusal::AlistDisagrees => 63,
    }
}

// The place of a refusal, if it has one.
pub fn place_of(r: Refusal) -> Option<usize>
    ensures { result ≡ place_of r }
{
    match r {
        Refusal::BadPrior(mechanism)
        | Refusal::DetectorOutOfRange(mechanism)
        | Refusal::DetectorRepeated(mechanism)
        | Refusal::BadProbability(mechanism)
        | Refusal::ObservableTooLarge(mechanism)
        | Refusal::NonFinite(mechanism) => Some(mechanism),
        Refusal::SyndromeNotBinary(check) | Refusal::OrderExchanged(check) => Some(check),
        Refusal::GammaNotFinite(index) => Some(index),
        Refusal::LineNotInSubset(line)
        | Refusal::ConstructLeftOut(line)
        | Refusal::NumberOutsideLimits(line) => Some(line),
        Refusal::ForeignCharacter(shot)
        | Refusal::LineLength(shot)
        | Refusal::CutShot(shot)
        | Refusal::FillingBitSet(shot) => Some(shot),
        _ => None,
    }
}
