// One party's script under way, on any provider.
//
// First every term's value is asked for, once for all sessions on the provider. A session then starts, and sends and receives in its
// party's turn: each call carries out its part of the script, on the slots that are lent to it, or is refused. What it answers and
// does is exactly what the script says, and a call that comes out of turn, for no party or with too little memory alters nothing.

#![tactic(auto)]

mod loading;
mod sent;
mod session;
mod turn;
mod work;

pub use loading::load;
pub use session::Session;
