//! One request of HTTP and its response, over any reader and writer, and a server whose connections wait side by side.
#![tactic(auto)]

mod deadline;
mod gate;
mod head;
mod held;
pub mod laws;
mod line;
mod lines;
mod overheard;
mod pages;
mod requests;
mod response;
mod routes;
mod seen;
mod serve;
mod server;
mod site;
mod targets;
mod told;
mod wanted;

pub use gate::Gate;
pub use seen::Seen;
pub use serve::{ServeFault, Watch, serve_one};
pub use server::serve_on;
pub use site::Site;
