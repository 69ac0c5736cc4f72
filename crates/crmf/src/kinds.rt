// The kinds of rows: document 01's section "Rows", SPECIFICATION 5. specs/meaning/Kinds.antt has the same names. They are numbers and no enum,
// since they stand in the table of numbers that C lends.
ghost use Rattle.std.specs.Prelude.{◌≤◌, ◌≡◌};
ghost use Rattle.crmf.specs.meaning.Rows.{container as isContainer};
ghost use Rattle.crmf.specs.steps.explain.Walk.{rows_of_kind};

// No row: the number that a packed line has where it gives none.
pub const NONE: usize = 0;

pub const BATCH: usize = 1;

pub const MESSAGE: usize = 2;

pub const CERT_REQ: usize = 3;

pub const CERT_REQ_ID: usize = 4;

pub const CERT_TEMPLATE: usize = 5;

// "template tags 0 to 9 are 10 to 19"
pub const VERSION: usize = 10;

pub const SERIAL_NUMBER: usize = 11;

pub const SIGNING_ALG: usize = 12;

pub const ISSUER: usize = 13;

pub const VALIDITY: usize = 14;

pub const SUBJECT: usize = 15;

pub const PUBLIC_KEY: usize = 16;

pub const ISSUER_UID: usize = 17;

pub const SUBJECT_UID: usize = 18;

pub const EXTENSIONS: usize = 19;

pub const NOT_BEFORE: usize = 20;

pub const NOT_AFTER: usize = 21;

pub const EXTENSION: usize = 22;

pub const CONTROLS: usize = 30;

// "control 40 + n, unknown 31"
pub const UNKNOWN_CONTROL: usize = 31;

pub const REG_TOKEN: usize = 41;

pub const AUTHENTICATOR: usize = 42;

pub const PKI_PUBLICATION_INFO: usize = 43;

pub const PKI_ARCHIVE_OPTIONS: usize = 44;

pub const OLD_CERT_ID: usize = 45;

pub const PROTOCOL_ENCR_KEY: usize = 46;

pub const RA_VERIFIED: usize = 50;

pub const SIGNATURE: usize = 51;

pub const KEY_ENCIPHERMENT: usize = 52;

pub const KEY_AGREEMENT: usize = 53;

pub const POPOSK_INPUT: usize = 54;

pub const SIGNATURE_ALGORITHM: usize = 55;

pub const SIGNATURE_BITS: usize = 56;

// "choices 60 to 64 by tag"
pub const THIS_MESSAGE: usize = 60;

pub const SUBSEQUENT_MESSAGE: usize = 61;

pub const DH_MAC: usize = 62;

pub const AGREE_MAC: usize = 63;

pub const ENCRYPTED_KEY: usize = 64;

pub const REG_INFO: usize = 70;

pub const UNKNOWN_REG_INFO: usize = 71;

// "pairs 72 (04) or 73 (0C)"
pub const OCTET_PAIRS: usize = 72;

pub const UTF8_PAIRS: usize = 73;

// "carried certReq item 74 (its child is a 3; its type is implied)"
pub const REG_INFO_CERT_REQ: usize = 74;

// How many rows a kind gives: 0 for NONE, 1 for any other.
pub(crate) fn row_of(kind: usize) -> usize
    ensures { (result ≡ rows_of_kind kind) × (result ≤ 1) }
{
    if kind == NONE { 0 } else { 1 }
}

// Whether a kind is a container's.
#[tactic(auto, unfolding(crate::specs::meaning::Notation::among, crate::specs::meaning::Rows::container))]
#[inline]
pub fn container(kind: usize) -> bool
    ensures { result ≡ isContainer kind }
{
    matches!(
        kind,
        BATCH
            | MESSAGE
            | CERT_REQ
            | CERT_TEMPLATE
            | VALIDITY
            | EXTENSIONS
            | CONTROLS
            | SIGNATURE
            | KEY_ENCIPHERMENT
            | KEY_AGREEMENT
            | REG_INFO
            | REG_INFO_CERT_REQ
    )
}
