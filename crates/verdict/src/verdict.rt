// The verdict on a message's proof, and the part that its signature covers (SPECIFICATION 7).
ghost use Rattle.std.specs.Prelude.{◌≡◌, List, ◌∷◌};
ghost use Rattle.std.proofs.Math.Option.{Option};
ghost use Rattle.crmf.specs.meaning.Fields.{Field};
ghost use Rattle.crmf.specs.steps.Fields.{fields_between};
ghost use Rattle.crmf.specs.meaning.Messages.{Message};
ghost use Rattle.crmf.proofs.Laws.{MessageParts};
ghost use Rattle.verdict.specs.meaning.Verdict.{has_subject_and_key, encipherment_verdict, agreement_verdict};
ghost use Rattle.verdict.specs.meaning.Judges.{Judges, SignedPart};
ghost use Rattle.verdict.specs.steps.JudgeAnswer.{verdict_on};
ghost use Rattle.verdict.specs.steps.Judging.{part_found, signature_answer, proof_answer};
ghost use Rattle.verdict.specs.steps.Results.{judge_answer_of, number_of, verdict_told};

use crate::elements::Elements;
use crmf::messages::{Position, message_at};
use der::refusal::{Refusal, Refused};
use editions::reader::accept;

// The verdicts, with document 01's numbers.
#[derive(Clone, Copy, PartialEq, Eq)]
pub enum ProofVerdict {
    // The message has no proof.
    NoProof = 0,
    // raVerified.
    RaVerified = 1,
    // A signature over the certReq: no poposkInput, and subject and publicKey both in the template.
    SignedCertReq = 2,
    // A signature over poposkInput: it is present, and subject or publicKey is missing.
    SignedPoposkInput = 3,
    // Any other signature.
    OtherSignature = 4,
    // Any other keyEncipherment.
    KeyEncipherment = 5,
    // Any other keyAgreement.
    KeyAgreement = 6,
    // Choice 82 under keyEncipherment, or without both subject and publicKey.
    MisplacedDhMac = 7,
}

impl ProofVerdict {
    // Document 01's number of the verdict.
    pub fn number(self) -> usize
        ensures { result ≡ number_of self }
    {
        self as usize
    }
}

// The identifiers of a message's proof, by its kind.
// Octets, and no enum: an input may have any octet in their place.
const RA_VERIFIED: u8 = 0x80;

const SIGNATURE: u8 = 0xA1;

const KEY_ENCIPHERMENT: u8 = 0xA2;

const KEY_AGREEMENT: u8 = 0xA3;

// The identifiers of elements inside a proof or a template.
const POPOSK_INPUT: u8 = 0xA0;

const DH_MAC: u8 = 0x82;

const SUBJECT: u8 = 0xA5;

const PUBLIC_KEY: u8 = 0xA6;

// A part of the bytes: its first byte and its length.
#[derive(Clone, Copy)]
pub struct Extent {
    pub from: usize,
    pub length: usize,
}

// The verdict on a message's proof, and the part of the bytes that its signature covers, if it covers one.
#[derive(Clone, Copy)]
pub struct Verdict {
    pub verdict: ProofVerdict,
    pub part: Option<Extent>,
}

// Judges the proof of the message at a position. Refuses what `accept` refuses, and then a position without a message (NoSuchMessage).
pub fn judge(edition: usize, bytes: &[u8], position: Position) -> Result<Verdict, Refused>
    ensures { let a = judge_answer_of result in Judges edition bytes.now position.0 a.number a.place a.verdict a.from a.length }
{
    accept(edition, bytes)?;
    let Some(at) = message_at(bytes, position) else {
        return Err(Refused {
            refusal: Refusal::NoSuchMessage,
            place: 0,
        });
    };
    let end = bytes.len();
    Ok(message(Elements { bytes, at, end }))
}

// Hands back the part of the bytes that the signature of the message at a position covers: the certReq with SignedCertReq, the poposkInput
// with SignedPoposkInput, and an empty part with any other verdict or a refusal.
pub fn signed_part(edition: usize, bytes: &[u8], position: Position) -> &[u8]
    ensures { SignedPart edition bytes.entry position.0 result }
{
    let Ok(found) = judge(edition, bytes, position) else {
        return &bytes[..0];
    };
    let Some(signed) = found.part else {
        return &bytes[..0];
    };
    let from = signed.from;
    let end = from + signed.length;
    &bytes[from..end]
}

// Whether subject and publicKey are both in the template of the certReq with these elements.
fn is_named(request: Elements) -> bool
    ensures { let r = request.entry in (m : Message) (more : List Field) → fields_between r.bytes.now r.at r.end ≡ m.cert_req_id ∷ m.template ∷ more → m.template.identifier ≡ 0x30 → result ≡ has_subject_and_key m }
{
    let id = request.split();
    let template = id.after.split().inside;
    template.has(SUBJECT) & template.has(PUBLIC_KEY)
}

// The verdict on the first of some messages.
fn message(messages: Elements) -> Verdict
    ensures { let r = messages.entry in (m : Message) (more : List Field) → fields_between r.bytes.now r.at r.end ≡ m.own ∷ more → MessageParts m → verdict_told result ≡ verdict_on m }
{
    let own = messages.split().inside;
    let request = own.split();
    let both = is_named(request.inside);
    let part = Extent {
        from: own.at,
        length: request.after.at - own.at,
    };
    let proof = request.after.split();
    proof_verdict(proof.identifier, proof.inside, both, part)
}

// The verdict by the identifier of the element after the certReq, which is the proof if the message has one, and by the elements inside it.
fn proof_verdict(id: u8, inside: Elements, both: bool, request: Extent) -> Verdict
    ensures { let p = inside.entry in verdict_told result ≡ proof_answer id (fields_between p.bytes.now p.at p.end) both request }
{
    match id {
        RA_VERIFIED => plain(ProofVerdict::RaVerified),
        SIGNATURE => signature(inside.find(POPOSK_INPUT), both, request),
        KEY_ENCIPHERMENT => plain(encipherment(inside.has(DH_MAC))),
        KEY_AGREEMENT => plain(agreement(inside.has(DH_MAC), both)),
        _ => plain(ProofVerdict::NoProof),
    }
}

// The verdict on a signature: over the certReq, over the poposkInput, or neither.
fn signature(input: Option<Extent>, both: bool, request: Extent) -> Verdict
    ensures { (o : Option Field) → input ≡ part_found o → verdict_told result ≡ signature_answer o both request }
{
    match (input, both) {
        (None, true) => tell(ProofVerdict::SignedCertReq, request),
        (Some(part), false) => tell(ProofVerdict::SignedPoposkInput, part),
        (None, false) => plain(ProofVerdict::OtherSignature),
        (Some(_), true) => plain(ProofVerdict::OtherSignature),
    }
}

// The verdict on keyEncipherment, by whether its choice is 82.
fn encipherment(mac: bool) -> ProofVerdict
    ensures { number_of result ≡ encipherment_verdict mac }
{
    if mac {
        ProofVerdict::MisplacedDhMac
    } else {
        ProofVerdict::KeyEncipherment
    }
}

// The verdict on keyAgreement.
fn agreement(mac: bool, both: bool) -> ProofVerdict
    ensures { number_of result ≡ agreement_verdict mac both }
{
    if mac & !both {
        ProofVerdict::MisplacedDhMac
    } else {
        ProofVerdict::KeyAgreement
    }
}

// A verdict with a signed part.
fn tell(verdict: ProofVerdict, part: Extent) -> Verdict
    ensures { result ≡ record { verdict = verdict; part = Some part } }
{
    Verdict {
        verdict,
        part: Some(part),
    }
}

// A verdict without a signed part.
fn plain(verdict: ProofVerdict) -> Verdict
    ensures { result ≡ record { verdict = verdict; part = None } }
{
    Verdict {
        verdict,
        part: None,
    }
}
