// The codes of a packed line: the room of each field, its weight, and what its codes mean. specs/steps/grammar/Codes.antt has the same names.
// They are numbers and no enums, since a line is one word that is their sum (`TABLE`, `packed`): an enum would list the same names again, with
// a match that reads its variants back from the word.

// The room of each field: its codes are below this. Two fields are line numbers, and two are kinds.
pub const PASSES: usize = 4;

pub const IDENTIFIERS: usize = 512;

pub const LINE_NUMBERS: usize = 256;

pub const JUDGES: usize = 32;

pub const KINDS: usize = 128;

pub const MARKS: usize = 64;

pub const ACTIONS: usize = 16;

pub const ROW_COUNTS: usize = 4;

// The weight of each field, from the lowest up: that of the field before it times that field's room. The pass is the lowest and weighs 1.
pub const ID: usize = 0x4;

pub const INSIDE: usize = 0x800;

pub const JUDGE: usize = 0x8_0000;

pub const KIND: usize = 0x100_0000;

pub const ITEM: usize = 0x8000_0000;

pub const MARK: usize = 0x40_0000_0000;

pub const NEXT: usize = 0x1000_0000_0000;

pub const ACTION: usize = 0x10_0000_0000_0000;

pub const ROWS: usize = 0x100_0000_0000_0000;

// Passes, for an element that isn't in the line's form: the container ends here, the part is needed, another form of it follows, or it may be
// passed over.
pub const ENDS: usize = 0;

pub const NEEDED: usize = 1;

pub const ANOTHER: usize = 2;

pub const OVER: usize = 3;

// Identifiers: none, all, the GeneralNames', or one octet, whose code is OCTET plus the octet.
pub const NOTHING: usize = 0;

pub const ANYTHING: usize = 1;

pub const GENERAL_NAME: usize = 2;

pub const OCTET: usize = 3;

// Inside: the line at which its lines start, or FREE if it isn't looked at.
pub const FREE: usize = 0;

// Judges: the rules of specs/meaning/Value.antt, and from SELECTORS on the selectors.
pub const ALWAYS: usize = 0;

pub const INTEGER: usize = 1;

pub const BOOLEAN: usize = 2;

pub const BIT_STRING: usize = 3;

pub const EMPTY: usize = 4;

pub const ZERO_OR_ONE: usize = 5;

pub const TRUE_ONLY: usize = 6;

pub const UTC_TIME: usize = 7;

pub const GENERALIZED_TIME_FROM_2050: usize = 8;

pub const SOME_FORWARDS: usize = 9;

pub const NEVER: usize = 10;

pub const SELECTORS: usize = 16;

pub const BY_ACTION: usize = 16;

pub const BY_METHOD: usize = 17;

pub const BY_CONTROL_TYPE: usize = 18;

pub const BY_INFO_TYPE: usize = 19;

// Marks: EDITION times the edition that alone allows the form, plus the number of the difference; 0 if both editions allow it.
pub const EDITION: usize = 8;

// The code of a mark that holds unless the value is 2 is this plus the mark's. All marks' codes are below it.
pub const UNLESS_TWO: usize = 32;

// The recogniser's actions. No element has the line's identifiers.
// A line is a number, so it can't hold a function; `take` has the one match on them.
pub const TAKE_NOTHING: usize = 0;

// The content isn't looked at.
pub const TAKE_UNSEEN: usize = 1;

// Primitive values by their type; a certReqId has at most 8 content octets, too.
pub const TAKE_OBJECT_IDENTIFIER: usize = 2;

pub const TAKE_INTEGER: usize = 3;

pub const TAKE_CERT_REQ_ID: usize = 4;

pub const TAKE_BIT_STRING: usize = 5;

pub const TAKE_UTF8_STRING: usize = 6;

// An element of any identifier, with the whole nest inside it.
pub const TAKE_NEST: usize = 7;

// A container. The commonest have an action of their own.
pub const TAKE_INSIDE: usize = 8;

pub const TAKE_ALG_ID: usize = 9;

pub const TAKE_ATTRIBUTE: usize = 10;

pub const TAKE_RDN: usize = 11;

// Every other line: its mark, its judge and its inside are read.
pub const TAKE_BY_LINE: usize = 12;

pub const TAKE_SPKI: usize = 13;

pub const TAKE_NAME: usize = 14;
