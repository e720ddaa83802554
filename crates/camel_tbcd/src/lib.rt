//! Addresses and IMSIs in the encodings of 3GPP TS 29.002.
//!
//! An address is borrowed as an [`Address`] or kept as an [`IsdnAddress`] or a [`CallAddress`]. An [`Imsi`] is kept as
//! one number, which gives its [`ImsiDigits`]. A [`Profile`] says whether the numbering plans of two addresses are
//! compared. No call of this crate takes memory.
#![tactic(auto)]

mod address;
mod call_address;
mod digits;
mod first_digits;
mod imsi;
mod imsi_digits;
mod isdn_address;
mod profile;
mod short_list;

pub use address::{Address, AddressFault, MAX_ADDRESS_LENGTH};
pub use call_address::CallAddress;
pub use digits::Digits;
pub use imsi::{
    Imsi, ImsiFault, MAX_IMSI_DIGITS, MAX_IMSI_OCTETS, MIN_IMSI_DIGITS, MIN_IMSI_OCTETS,
};
pub use imsi_digits::ImsiDigits;
pub use isdn_address::{IsdnAddress, MAX_ISDN_ADDRESS_LENGTH};
pub use profile::Profile;
