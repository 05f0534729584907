// What kinds of names are called.
use terms::Kind;

pub(crate) fn kind_name(kind: Kind) -> &'static str {
    match kind {
        Kind::Party => "a party",
        Kind::Number => "a number",
        Kind::Shared => "a shared key",
        Kind::Public => "a public key",
        Kind::Table => "a table",
        Kind::Function => "a function",
    }
}
