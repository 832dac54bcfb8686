//! One module for each crate, or for what stands at the machine.
mod cells;
mod ends;
mod files;
mod folder;
mod machine;
mod server;
mod sockets;
mod streams;
