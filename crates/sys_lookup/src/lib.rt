//! What the bodies of calls share: the state that they look things up in, the caller and its checks, the walk of a path, and
//! what it means that a body plays its row.
#![tactic(auto)]

mod argument;
mod asking;
mod caller;
mod descriptors;
mod directories;
mod effect;
mod executing;
mod found;
mod last_name;
mod looking;
mod making;
mod owning;
mod relabelling;
mod reporting;
mod rewriting;
mod shared;
mod storing;
mod walk_stop;
mod walking;

pub use argument::PathArgument;
pub use asking::must_if;
pub use caller::Caller;
pub use effect::{CallResult, Effect};
pub use found::Found;
pub use kern_model::NoMemory;
pub use last_name::LastName;
pub use making::{NewObject, Spot, create, make};
pub use owning::{Ownership, has_set_id, sets_group, sets_user};
pub use shared::{Metadata, Shared};
pub use walk_stop::{WalkStop, walk};
