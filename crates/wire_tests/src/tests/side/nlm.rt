//! NLM.

mod bounds;
mod calls;
mod forms;
mod replies;
