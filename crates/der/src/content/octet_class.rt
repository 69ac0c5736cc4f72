// The classes of octets that the productions of UTF-8 (RFC 3629) tell apart. They are numbers and no enum: the tails that a lead asks for are
// a range of classes, and the table of all 256 octets has a digit or two for each, where an enum would have a name.

// 00 to 7F: a whole character.
pub(crate) const WHOLE: u8 = 0;

// 80 to 8F: a tail.
pub(crate) const TAIL_80: u8 = 1;

// 90 to 9F: a tail.
pub(crate) const TAIL_90: u8 = 2;

// A0 to BF: a tail.
pub(crate) const TAIL_A0: u8 = 3;

// C2 to DF: the lead of two octets.
pub(crate) const LEAD_C2: u8 = 4;

// E0: a lead of three octets, whose first tail is A0 to BF.
pub(crate) const LEAD_E0: u8 = 5;

// E1 to EC, EE and EF: a lead of three octets.
pub(crate) const LEAD_E1: u8 = 6;

// ED: a lead of three octets, whose first tail is 80 to 9F.
pub(crate) const LEAD_ED: u8 = 7;

// F0: a lead of four octets, whose first tail is 90 to BF.
pub(crate) const LEAD_F0: u8 = 8;

// F1 to F3: a lead of four octets.
pub(crate) const LEAD_F1: u8 = 9;

// F4: a lead of four octets, whose first tail is 80 to 8F.
pub(crate) const LEAD_F4: u8 = 10;
