// The table of the grammar's lines, each a sum of its fields. docs/CHANGING-THE-GRAMMAR.md shows how a line comes in.
use crate::grammar::codes::*;
use crate::kinds;

// Where each container's lines start, in the order of the names in specs/meaning/Notation.antt. A start is the one before it plus the number
// of that container's lines, END included.
pub const TOP: usize = 1;

pub const BATCH: usize = TOP + 2;

pub const MESSAGE: usize = BATCH + 3;

pub const CERT_REQ: usize = MESSAGE + 7;

pub const TEMPLATE: usize = CERT_REQ + 4;

pub const VALIDITY: usize = TEMPLATE + 11;

pub const TIME: usize = VALIDITY + 3;

pub const ALG_ID: usize = TIME + 3;

pub const SPKI: usize = ALG_ID + 3;

pub const ONE_NAME: usize = SPKI + 3;

pub const RDN_SEQUENCE: usize = ONE_NAME + 2;

pub const RDN: usize = RDN_SEQUENCE + 2;

pub const ATTRIBUTE: usize = RDN + 3;

pub const EXTENSIONS: usize = ATTRIBUTE + 3;

pub const EXTENSION: usize = EXTENSIONS + 3;

pub const SIGNATURE: usize = EXTENSION + 4;

pub const POPOSK_INPUT: usize = SIGNATURE + 4;

pub const SENDER: usize = POPOSK_INPUT + 4;

pub const PK_MAC: usize = SENDER + 2;

pub const KEY_PROOF: usize = PK_MAC + 3;

pub const CONTROLS: usize = KEY_PROOF + 6;

pub const CONTROL: usize = CONTROLS + 3;

pub const UNKNOWN_CONTROL: usize = CONTROL + 9;

pub const REG_TOKEN: usize = UNKNOWN_CONTROL + 2;

pub const AUTHENTICATOR: usize = REG_TOKEN + 2;

pub const PUBLICATION_INFO: usize = AUTHENTICATOR + 2;

pub const ARCHIVE_OPTIONS: usize = PUBLICATION_INFO + 2;

pub const OLD_CERT_ID: usize = ARCHIVE_OPTIONS + 4;

pub const PROTOCOL_KEY: usize = OLD_CERT_ID + 2;

pub const PUB_INFO: usize = PROTOCOL_KEY + 2;

pub const NOT_PUBLISHED: usize = PUB_INFO + 4;

pub const PUBLISHED: usize = NOT_PUBLISHED + 2;

pub const LOCATIONS: usize = PUBLISHED + 2;

pub const LOCATION: usize = LOCATIONS + 3;

pub const DONT_CARE: usize = LOCATION + 6;

pub const WHERE: usize = DONT_CARE + 2;

pub const ARCHIVED: usize = WHERE + 2;

pub const CERT_ID: usize = ARCHIVED + 3;

pub const REG_INFO: usize = CERT_ID + 3;

pub const INFO: usize = REG_INFO + 3;

pub const UNKNOWN_INFO: usize = INFO + 5;

pub const PAIRS: usize = UNKNOWN_INFO + 2;

pub const CARRIED: usize = PAIRS + 3;

// How many lines there are.
pub const LINES: usize = CARRIED + 2;

// A container's end.
const END: usize = ENDS;

// A form with one identifier, as in specs/meaning/Grammar.antt: of a part that occurs once; the same with another form after it; of a part that
// may be missing; and of one that may be missing or occur again.
const ONE: usize = NEEDED + ID * OCTET;

const ONE_OF: usize = ANOTHER + ID * OCTET;

const MAYBE: usize = OVER + ID * OCTET;

const ANY: usize = OVER + ID * OCTET;

// "any" and "any?".
const ONE_VALUE: usize = NEEDED + ID * ANYTHING + ACTION * TAKE_NEST;

const MAYBE_VALUE: usize = OVER + ID * ANYTHING + ACTION * TAKE_NEST;

// A GeneralName, and one that may be missing.
const ONE_GENERAL_NAME: usize = NEEDED + ID * GENERAL_NAME + BY_LINE;

const MAYBE_GENERAL_NAME: usize = OVER + ID * GENERAL_NAME + BY_LINE;

// One of the ways that a value selects: it only says where to go on.
const WAY: usize = NEEDED + ID * NOTHING;

// What the recogniser does with the element.
const UNSEEN: usize = ACTION * TAKE_UNSEEN;

const AN_OBJECT_IDENTIFIER: usize = ACTION * TAKE_OBJECT_IDENTIFIER;

const AN_INTEGER: usize = ACTION * TAKE_INTEGER;

const A_CERT_REQ_ID: usize = ACTION * TAKE_CERT_REQ_ID;

const A_BIT_STRING: usize = ACTION * TAKE_BIT_STRING;

const A_UTF8_STRING: usize = ACTION * TAKE_UTF8_STRING;

const BY_LINE: usize = ACTION * TAKE_BY_LINE;

const INTO: usize = ACTION * TAKE_INSIDE;

// The containers with an action of their own.
const INTO_ALG_ID: usize = INSIDE * ALG_ID + ACTION * TAKE_ALG_ID;

const INTO_ATTRIBUTE: usize = INSIDE * ATTRIBUTE + ACTION * TAKE_ATTRIBUTE;

const INTO_RDN: usize = INSIDE * RDN + ACTION * TAKE_RDN;

const INTO_SPKI: usize = INSIDE * SPKI + ACTION * TAKE_SPKI;

const INTO_NAME: usize = INSIDE * ONE_NAME + ACTION * TAKE_NAME;

// "An implicitly tagged INTEGER, BOOLEAN or BIT STRING keeps that type's content rule".
const IMPLICIT_BIT_STRING: usize = JUDGE * BIT_STRING + A_BIT_STRING;

// The marks of the differences, document 01's and document 02's D4: the edition that alone allows the form.
const ONLY_1_D2: usize = EDITION * 1 + 2;

const ONLY_1_D3: usize = EDITION * 1 + 3;

const ONLY_1_D4: usize = EDITION * 1 + 4;

const ONLY_1_D4_UNLESS_TWO: usize = UNLESS_TWO + ONLY_1_D4;

const ONLY_2_D1: usize = EDITION * 2 + 1;

const ONLY_2_D2: usize = EDITION * 2 + 2;

// An element gives one row, its own or its item's.
const ROW: usize = ROWS;

// An entry: the pass and the identifier; the inside, the mark, the judge and the action; the kinds and how many rows they are; the line to go
// on with. What isn't named is 0: no inside, both editions, no rule, no row. No NEXT means that the container has no further part.
pub(crate) static TABLE: [usize; LINES] = [
    // Line 0: no container starts here, so an inside of 0 is free; and it is an end, so after its last part a container goes on here.
    END,
    // Top: batch 30
    ONE + ID * 0x30 + INSIDE * BATCH + INTO + KIND * kinds::BATCH + ROW,
    END,
    // Batch (CertReqMessages): message 30
    ONE + ID * 0x30 + INSIDE * MESSAGE + INTO + KIND * kinds::MESSAGE + ROW + NEXT * (BATCH + 1),
    // message 30, any number
    ANY + ID * 0x30 + INSIDE * MESSAGE + INTO + KIND * kinds::MESSAGE + ROW + NEXT * (BATCH + 1),
    END,
    // Message (CertReqMsg): certReq 30
    (ONE + ID * 0x30)
        + (INSIDE * CERT_REQ + INTO)
        + (KIND * kinds::CERT_REQ + ROW)
        + NEXT * (MESSAGE + 1),
    // proof (ProofOfPossession): raVerified 80 empty
    (MAYBE + ID * 0x80)
        + (JUDGE * EMPTY + BY_LINE)
        + (KIND * kinds::RA_VERIFIED + ROW)
        + NEXT * (MESSAGE + 5),
    // proof: signature A1
    (MAYBE + ID * 0xA1)
        + (INSIDE * SIGNATURE + INTO)
        + (KIND * kinds::SIGNATURE + ROW)
        + NEXT * (MESSAGE + 5),
    // proof: keyEncipherment A2
    (MAYBE + ID * 0xA2)
        + (INSIDE * KEY_PROOF + INTO)
        + (KIND * kinds::KEY_ENCIPHERMENT + ROW)
        + NEXT * (MESSAGE + 5),
    // proof: keyAgreement A3
    (MAYBE + ID * 0xA3)
        + (INSIDE * KEY_PROOF + INTO)
        + (KIND * kinds::KEY_AGREEMENT + ROW)
        + NEXT * (MESSAGE + 5),
    // regInfo 30?
    MAYBE + ID * 0x30 + INSIDE * REG_INFO + INTO + KIND * kinds::REG_INFO + ROW,
    END,
    // CertReq (CertRequest): certReqId 02
    ONE + ID * 0x02 + A_CERT_REQ_ID + KIND * kinds::CERT_REQ_ID + ROW + NEXT * (CERT_REQ + 1),
    // template 30
    (ONE + ID * 0x30)
        + (INSIDE * TEMPLATE + INTO)
        + (KIND * kinds::CERT_TEMPLATE + ROW)
        + NEXT * (CERT_REQ + 2),
    // controls 30?
    MAYBE + ID * 0x30 + INSIDE * CONTROLS + INTO + KIND * kinds::CONTROLS + ROW,
    END,
    // Template (CertTemplate): version 80 INTEGER? (D4, unless it is 2)
    (MAYBE + ID * 0x80)
        + (MARK * ONLY_1_D4_UNLESS_TWO + JUDGE * INTEGER + BY_LINE)
        + (KIND * kinds::VERSION + ROW)
        + NEXT * (TEMPLATE + 1),
    // serialNumber 81 INTEGER? (D4)
    (MAYBE + ID * 0x81)
        + (MARK * ONLY_1_D4 + JUDGE * INTEGER + BY_LINE)
        + (KIND * kinds::SERIAL_NUMBER + ROW)
        + NEXT * (TEMPLATE + 2),
    // signingAlg A2 AlgId content? (D4)
    (MAYBE + ID * 0xA2)
        + (INSIDE * ALG_ID + MARK * ONLY_1_D4 + BY_LINE)
        + (KIND * kinds::SIGNING_ALG + ROW)
        + NEXT * (TEMPLATE + 3),
    // issuer A3 (Name)?
    MAYBE + ID * 0xA3 + INTO_NAME + KIND * kinds::ISSUER + ROW + NEXT * (TEMPLATE + 4),
    // validity A4?, at least one, notAfter not earlier than notBefore
    (MAYBE + ID * 0xA4)
        + (INSIDE * VALIDITY + JUDGE * SOME_FORWARDS + BY_LINE)
        + (KIND * kinds::VALIDITY + ROW)
        + NEXT * (TEMPLATE + 5),
    // subject A5 (Name)?
    MAYBE + ID * 0xA5 + INTO_NAME + KIND * kinds::SUBJECT + ROW + NEXT * (TEMPLATE + 6),
    // publicKey A6 Spki content?
    MAYBE + ID * 0xA6 + INTO_SPKI + KIND * kinds::PUBLIC_KEY + ROW + NEXT * (TEMPLATE + 7),
    // issuerUID 87 BIT STRING? (D4)
    (MAYBE + ID * 0x87)
        + (MARK * ONLY_1_D4 + JUDGE * BIT_STRING + BY_LINE)
        + (KIND * kinds::ISSUER_UID + ROW)
        + NEXT * (TEMPLATE + 8),
    // subjectUID 88 BIT STRING? (D4)
    (MAYBE + ID * 0x88)
        + (MARK * ONLY_1_D4 + JUDGE * BIT_STRING + BY_LINE)
        + (KIND * kinds::SUBJECT_UID + ROW)
        + NEXT * (TEMPLATE + 9),
    // extensions A9?
    MAYBE + ID * 0xA9 + INSIDE * EXTENSIONS + INTO + KIND * kinds::EXTENSIONS + ROW,
    END,
    // Validity (OptionalValidity): notBefore A0 (Time)?
    (MAYBE + ID * 0xA0)
        + (INSIDE * TIME + INTO)
        + (KIND * kinds::NOT_BEFORE + ROW)
        + NEXT * (VALIDITY + 1),
    // notAfter A1 (Time)?
    MAYBE + ID * 0xA1 + INSIDE * TIME + INTO + KIND * kinds::NOT_AFTER + ROW,
    END,
    // Time: 17, YYMMDDHHMMSSZ
    ONE_OF + ID * 0x17 + JUDGE * UTC_TIME + BY_LINE,
    // or 18, YYYYMMDDHHMMSSZ from 2050 on
    ONE + ID * 0x18 + JUDGE * GENERALIZED_TIME_FROM_2050 + BY_LINE,
    END,
    // AlgId (AlgorithmIdentifier): 06
    ONE + ID * 0x06 + AN_OBJECT_IDENTIFIER + NEXT * (ALG_ID + 1),
    // any?
    MAYBE_VALUE,
    END,
    // Spki (SubjectPublicKeyInfo): AlgId 30
    ONE + ID * 0x30 + INTO_ALG_ID + NEXT * (SPKI + 1),
    // 03
    ONE + ID * 0x03 + A_BIT_STRING,
    END,
    // OneName (Name): RdnSequence 30
    ONE + ID * 0x30 + INSIDE * RDN_SEQUENCE + INTO,
    END,
    // RdnSequence (RDNSequence): 31, any number
    ANY + ID * 0x31 + INTO_RDN + NEXT * RDN_SEQUENCE,
    END,
    // Rdn (RelativeDistinguishedName): 30
    ONE + ID * 0x30 + INTO_ATTRIBUTE + NEXT * (RDN + 1),
    // 30, any number
    ANY + ID * 0x30 + INTO_ATTRIBUTE + NEXT * (RDN + 1),
    END,
    // Attribute (AttributeTypeAndValue): 06
    ONE + ID * 0x06 + AN_OBJECT_IDENTIFIER + NEXT * (ATTRIBUTE + 1),
    // any
    ONE_VALUE,
    END,
    // Extensions: Extension 30
    (ONE + ID * 0x30)
        + (INSIDE * EXTENSION + INTO)
        + (KIND * kinds::EXTENSION + ROW)
        + NEXT * (EXTENSIONS + 1),
    // Extension 30, any number
    (ANY + ID * 0x30)
        + (INSIDE * EXTENSION + INTO)
        + (KIND * kinds::EXTENSION + ROW)
        + NEXT * (EXTENSIONS + 1),
    END,
    // Extension: 06
    ONE + ID * 0x06 + AN_OBJECT_IDENTIFIER + NEXT * (EXTENSION + 1),
    // 01?, a BOOLEAN present must be FF
    MAYBE + ID * 0x01 + JUDGE * TRUE_ONLY + BY_LINE + NEXT * (EXTENSION + 2),
    // 04
    ONE + ID * 0x04 + UNSEEN,
    END,
    // Signature (POPOSigningKey): poposkInput A0?
    (MAYBE + ID * 0xA0)
        + (INSIDE * POPOSK_INPUT + INTO)
        + (KIND * kinds::POPOSK_INPUT + ROW)
        + NEXT * (SIGNATURE + 1),
    // AlgId 30
    ONE + ID * 0x30
        + INTO_ALG_ID
        + KIND * kinds::SIGNATURE_ALGORITHM
        + ROW
        + NEXT * (SIGNATURE + 2),
    // 03
    ONE + ID * 0x03 + A_BIT_STRING + KIND * kinds::SIGNATURE_BITS + ROW,
    END,
    // PoposkInput (POPOSigningKeyInput): sender A0 (GeneralName)
    ONE_OF + ID * 0xA0 + INSIDE * SENDER + INTO + NEXT * (POPOSK_INPUT + 2),
    // or PkMac 30
    ONE + ID * 0x30 + INSIDE * PK_MAC + INTO + NEXT * (POPOSK_INPUT + 2),
    // Spki 30
    ONE + ID * 0x30 + INTO_SPKI,
    END,
    // Sender: a GeneralName
    ONE_GENERAL_NAME,
    END,
    // PkMac (PKMACValue): AlgId 30
    ONE + ID * 0x30 + INTO_ALG_ID + NEXT * (PK_MAC + 1),
    // 03
    ONE + ID * 0x03 + A_BIT_STRING,
    END,
    // KeyProof (POPOPrivKey): 80 BIT STRING
    ONE_OF + ID * 0x80 + IMPLICIT_BIT_STRING + KIND * kinds::THIS_MESSAGE + ROW,
    // or 81 INTEGER 0 or 1
    ONE_OF + ID * 0x81 + JUDGE * ZERO_OR_ONE + BY_LINE + KIND * kinds::SUBSEQUENT_MESSAGE + ROW,
    // or 82 BIT STRING
    ONE_OF + ID * 0x82 + IMPLICIT_BIT_STRING + KIND * kinds::DH_MAC + ROW,
    // or A3 PkMac content (D1)
    (ONE_OF + ID * 0xA3)
        + (INSIDE * PK_MAC + MARK * ONLY_2_D1 + BY_LINE)
        + (KIND * kinds::AGREE_MAC + ROW),
    // or A4 any nest (D1)
    ONE + ID * 0xA4 + MARK * ONLY_2_D1 + BY_LINE + KIND * kinds::ENCRYPTED_KEY + ROW,
    END,
    // Controls: item 30
    ONE + ID * 0x30 + INSIDE * CONTROL + INTO + NEXT * (CONTROLS + 1),
    // item 30, any number
    ANY + ID * 0x30 + INSIDE * CONTROL + INTO + NEXT * (CONTROLS + 1),
    END,
    // Control (AttributeTypeAndValue): type 06
    ONE + ID * 0x06 + JUDGE * BY_CONTROL_TYPE + BY_LINE + NEXT * (CONTROL + 1),
    // n = 0: the type is unknown
    WAY + NEXT * UNKNOWN_CONTROL,
    // n = 1
    WAY + NEXT * REG_TOKEN,
    // n = 2
    WAY + NEXT * AUTHENTICATOR,
    // n = 3
    WAY + NEXT * PUBLICATION_INFO,
    // n = 4
    WAY + NEXT * ARCHIVE_OPTIONS,
    // n = 5
    WAY + NEXT * OLD_CERT_ID,
    // n = 6
    WAY + NEXT * PROTOCOL_KEY,
    END,
    // UnknownControl: any value
    ONE_VALUE + ITEM * kinds::UNKNOWN_CONTROL + ROW,
    END,
    // RegToken: 0C, a UTF8String
    ONE + ID * 0x0C + A_UTF8_STRING + ITEM * kinds::REG_TOKEN + ROW,
    END,
    // Authenticator: 0C, a UTF8String
    ONE + ID * 0x0C + A_UTF8_STRING + ITEM * kinds::AUTHENTICATOR + ROW,
    END,
    // PublicationInfo (PKIPublicationInfo): 30
    ONE + ID * 0x30 + INSIDE * PUB_INFO + INTO + ITEM * kinds::PKI_PUBLICATION_INFO + ROW,
    END,
    // ArchiveOptions (PKIArchiveOptions): A0
    ONE_OF + ID * 0xA0 + INSIDE * ARCHIVED + INTO + ITEM * kinds::PKI_ARCHIVE_OPTIONS + ROW,
    // or 81
    ONE_OF + ID * 0x81 + UNSEEN + ITEM * kinds::PKI_ARCHIVE_OPTIONS + ROW,
    // or 82 BOOLEAN
    ONE + ID * 0x82 + JUDGE * BOOLEAN + BY_LINE + ITEM * kinds::PKI_ARCHIVE_OPTIONS + ROW,
    END,
    // OldCertId (CertId): 30
    ONE + ID * 0x30 + INSIDE * CERT_ID + INTO + ITEM * kinds::OLD_CERT_ID + ROW,
    END,
    // ProtocolKey (SubjectPublicKeyInfo): Spki 30
    ONE + ID * 0x30 + INTO_SPKI + ITEM * kinds::PROTOCOL_ENCR_KEY + ROW,
    END,
    // PubInfo (PKIPublicationInfo): action 02 (0 or 1)
    ONE + ID * 0x02 + JUDGE * BY_ACTION + BY_LINE + NEXT * (PUB_INFO + 1),
    // action 0
    WAY + NEXT * NOT_PUBLISHED,
    // action 1
    WAY + NEXT * PUBLISHED,
    END,
    // NotPublished: the list (pubInfos) 30?, only with 1
    MAYBE + ID * 0x30 + INSIDE * LOCATIONS + JUDGE * NEVER + BY_LINE,
    END,
    // Published: the list (pubInfos) 30?
    MAYBE + ID * 0x30 + INSIDE * LOCATIONS + INTO,
    END,
    // Locations (pubInfos): 30
    ONE + ID * 0x30 + INSIDE * LOCATION + INTO + NEXT * (LOCATIONS + 1),
    // 30, any number
    ANY + ID * 0x30 + INSIDE * LOCATION + INTO + NEXT * (LOCATIONS + 1),
    END,
    // Location (SinglePubInfo): method 02 (0 to 3)
    ONE + ID * 0x02 + JUDGE * BY_METHOD + BY_LINE + NEXT * (LOCATION + 1),
    // method 0
    WAY + NEXT * DONT_CARE,
    // method 1
    WAY + NEXT * WHERE,
    // method 2
    WAY + NEXT * WHERE,
    // method 3
    WAY + NEXT * WHERE,
    END,
    // DontCare (pubLocation): GeneralName? (D3)
    MAYBE_GENERAL_NAME + MARK * ONLY_1_D3,
    END,
    // Where (pubLocation): GeneralName?
    MAYBE_GENERAL_NAME,
    END,
    // Archived (EncryptedKey): 30
    ONE_OF + ID * 0x30 + BY_LINE,
    // or A0
    ONE + ID * 0xA0 + BY_LINE,
    END,
    // CertId: issuer, a GeneralName
    ONE_GENERAL_NAME + NEXT * (CERT_ID + 1),
    // 02
    ONE + ID * 0x02 + AN_INTEGER,
    END,
    // RegInfo: item 30
    ONE + ID * 0x30 + INSIDE * INFO + INTO + NEXT * (REG_INFO + 1),
    // item 30, any number
    ANY + ID * 0x30 + INSIDE * INFO + INTO + NEXT * (REG_INFO + 1),
    END,
    // Info (AttributeTypeAndValue): type 06
    ONE + ID * 0x06 + JUDGE * BY_INFO_TYPE + BY_LINE + NEXT * (INFO + 1),
    // n = 0: the type is unknown
    WAY + NEXT * UNKNOWN_INFO,
    // n = 1
    WAY + NEXT * PAIRS,
    // n = 2
    WAY + NEXT * CARRIED,
    END,
    // UnknownInfo: any value
    ONE_VALUE + ITEM * kinds::UNKNOWN_REG_INFO + ROW,
    END,
    // Pairs: 04, an OCTET STRING (D2)
    ONE_OF + ID * 0x04 + MARK * ONLY_1_D2 + BY_LINE + ITEM * kinds::OCTET_PAIRS + ROW,
    // or 0C, UTF8Pairs (D2)
    ONE + ID * 0x0C + MARK * ONLY_2_D2 + BY_LINE + ITEM * kinds::UTF8_PAIRS + ROW,
    END,
    // Carried (CertRequest): certReq 30
    (ONE + ID * 0x30)
        + (INSIDE * CERT_REQ + INTO)
        + (ITEM * kinds::REG_INFO_CERT_REQ + KIND * kinds::CERT_REQ + ROW * 2),
    END,
];
