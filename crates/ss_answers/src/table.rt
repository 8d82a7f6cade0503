//! Answers in order, and their look-ups.
ghost use Rattle.std.specs.Prelude.{◌≡◌, [], ◌∷◌, ◌++◌, Option, IfOk, OnOk};
ghost use Rattle.std.specs.List.{cons_option, find};
ghost use Rattle.std.specs.Option.{option_copied};
ghost use Rattle.ss_answers.specs.Answers.{Rise, SaysTheSame, last_trust, payloads_of};
ghost use Rattle.ss_answers.specs.AnswerKey.{sort_key};
ghost use Rattle.ss_answers.specs.AnswerLine.{answer_at, answers_at, has_key, IsInOrder};

use crate::key::Key;
use crate::lines::Lines;
use crate::place::Place;
use ss_block::Scheme;
use ss_octets::Bytes;
use ss_origin::SealFault;
use ss_review::Judge;
use std::alloc::{AllocError, Global};
use std::marker::Model;

/// The answers of a signature checker. A look-up takes logarithmically many comparisons.
///
/// Contracts see a list of lines that say the same as those of the file.
#[derive(Debug, Drop)]
pub struct Answers {
    octets: Vec<u8>,
    places: Vec<Place>,
}

impl Model for Answers {
    ghost use Rattle.std.specs.Prelude.{List};
    ghost use Rattle.ss_answers.specs.Answers.{Answer};
    ghost use Rattle.ss_answers.specs.AnswerLine.{answers_at, IsInOrder};

    ghost Value = { List Answer };

    ghost view = { λ a. answers_at a.octets.items a.places.items };

    ghost invariant = { λ a. IsInOrder a.octets.items a.places.items };
}

impl Answers {
    ghost use Rattle.std.specs.Prelude.{◌≡◌, Some, None, Err, IfOk, IfErr};
    ghost use Rattle.ss_answers.specs.Answers.{Rise, SaysTheSame, payloads_of, trusted, valid, seal_of};
    ghost use Rattle.ss_answers.specs.AnswerLine.{answers_of, IfRefused};

    /// The answers that lines give.
    ///
    /// # Errors
    ///
    /// Only out of memory.
    pub(crate) fn of_lines(lines: Lines) -> Result<Answers, AllocError>
        ensures { IfOk result (λ answers. SaysTheSame (answers_of lines) answers) }
    {
        let Lines { octets, mut places } = lines;
        sort(&octets, &mut places)?;
        Ok(Answers { octets, places })
    }

    /// Whether some line trusts the payload.
    pub fn trusts(&self, payload: &[u8]) -> bool
        ensures { result ≡ trusted self.now payload.now }
    {
        find(&self.octets, &self.places, Key::trust(payload)).is_some()
    }

    /// Whether some line says that under the payload the octets have this signature.
    pub fn accepts(&self, payload: &[u8], bytes: &[u8], signature: &[u8]) -> bool
        ensures { result ≡ valid self.now payload.now bytes.now signature.now }
    {
        find(
            &self.octets,
            &self.places,
            Key::yes(payload, bytes, signature),
        )
        .is_some()
    }

    /// The signature of the first line that gives these octets one.
    ///
    /// # Errors
    ///
    /// `Refused` where no line gives them one; `Memory` where the copy can't be made.
    pub fn seal(&self, alloc: Global, bytes: &[u8]) -> Result<Vec<u8>, SealFault>
        ensures ok { IfOk result (λ signature. seal_of self.now bytes.now ≡ Some signature.items) }
        ensures refused { IfErr result (λ fault. IfRefused fault (seal_of self.now bytes.now ≡ None)) }
        // Whether a line gives them one is found out before memory is taken.
        ensures refused_first { seal_of self.now bytes.now ≡ None → result ≡ Err SealFault.Refused }
    {
        let Some(place) = find(&self.octets, &self.places, Key::seal(bytes)) else {
            return Err(SealFault::Refused);
        };
        let Some(signature) = place.given_signature(&self.octets) else {
            return Err(SealFault::Refused);
        };
        match Vec::from_slice(alloc, signature) {
            Ok(signature) => Ok(signature),
            Err(_) => Err(SealFault::Memory),
        }
    }

    /// The payloads that lines trust, each once, in the order of their octets.
    ///
    /// # Errors
    ///
    /// Only out of memory.
    pub fn payloads(&self, alloc: Global) -> Result<Vec<Bytes>, AllocError>
        ensures are { IfOk result (λ payloads. payloads.items ≡ payloads_of self.now) }
        ensures rise { IfOk result (λ payloads. Rise payloads.items) }
    {
        payloads_at(alloc, &self.octets, &self.places)
    }
}

impl Scheme for Answers {
    ghost use Rattle.ss_answers.specs.Answers.{trusted, valid};

    ghost trusted = { λ answers payload. trusted answers payload };

    ghost valid = { λ answers payload bytes signature. valid answers payload bytes signature };
}

impl Judge for Answers {
    ghost use Rattle.ss_answers.specs.Answers.{trusted, valid};

    ghost sound = { λ answers. Unit {0} };

    ghost askable = { λ _ _. Unit {0} };

    ghost trusted = { λ answers payload. trusted answers payload };

    ghost valid = { λ answers payload bytes signature. valid answers payload bytes signature };

    fn trusts(&self, payload: &[u8]) -> bool {
        Answers::trusts(self, payload)
    }

    fn accepts(&self, payload: &[u8], bytes: &[u8], signature: &[u8]) -> bool {
        Answers::accepts(self, payload, bytes, signature)
    }
}

/// Puts places in the order of the keys of their lines. Lines of one key stay in the order in which they were.
fn sort(octets: &[u8], places: &mut Vec<Place>) -> Result<(), AllocError>
    ensures in_order { OnOk result (IsInOrder octets.now places.new.items) }
    ensures same { OnOk result
        (SaysTheSame (answers_at octets.now places.old.items) (answers_at octets.now places.new.items)) }
{
    places.sort_by(|a, b| a.key(octets).compare(&b.key(octets)))
}

/// The first line of a key, among lines in order.
fn find<'a>(octets: &[u8], places: &'a [Place], key: Key<'_>) -> Option<&'a Place>
    requires { IsInOrder octets.now places.now }
    ensures { option_copied result ≡ find (has_key octets.now (sort_key key.entry)) places.now }
{
    let at = places.partition_point(|place| place.key(octets).compare(&key).is_lt());
    if at >= places.len() {
        return None;
    }
    let place = &places[at];
    if place.key(octets).compare(&key).is_eq() {
        Some(place)
    } else {
        None
    }
}

/// The payloads that the lines at these places trust, each once. They are in order, so a payload that two lines trust
/// stands in neighbours, and the payloads rise.
fn payloads_at(alloc: Global, octets: &[u8], places: &[Place]) -> Result<Vec<Bytes>, AllocError>
    requires { IsInOrder octets.now places.now }
    ensures are { IfOk result (λ payloads. payloads.items ≡ payloads_of (answers_at octets.now places.now)) }
    ensures rise { IfOk result (λ payloads. Rise payloads.items) }
{
    let mut payloads = Vec::new(alloc);
    let mut rest = places;
    while let Some((first, others)) = rest.split_first() {
        add_payload(alloc, &mut payloads, last_trust(octets, first, others))?;
        rest = others;
    }
    Ok(payloads)
}

/// The payload that the first line trusts, unless one of the others does too, which stand after it in their order.
fn last_trust<'a>(octets: &'a [u8], first: &Place, others: &[Place]) -> Option<&'a [u8]>
    requires { IsInOrder octets.now (first.now ∷ others.now) }
    ensures { option_copied result ≡ last_trust (answer_at octets.now first.now) (answers_at octets.now others.now) }
{
    let payload = first.trusted_payload(octets)?;
    let Some((next, _)) = others.split_first() else {
        return Some(payload);
    };
    if next.trusts(octets, payload) {
        None
    } else {
        Some(payload)
    }
}

/// Adds a copy of the payload, if there is one.
fn add_payload(
    alloc: Global,
    payloads: &mut Vec<Bytes>,
    payload: Option<&[u8]>,
) -> Result<(), AllocError>
    ensures { OnOk result (payloads.new.items ≡ payloads.old.items ++ cons_option (option_copied payload.entry) []) }
{
    if let Some(payload) = payload {
        payloads.push(Bytes::from_vec(Vec::from_slice(alloc, payload)?))?;
    }
    Ok(())
}
