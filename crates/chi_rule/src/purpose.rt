//! What an exchange on a store's words is for.

use chi_fields::Access;

/// An access of one requester, as a step of a store names it to the rule.
#[derive(Clone, Copy)]
pub struct Purpose {
    pub src: u8,
    pub access: Access,
}
