//! Tests of the server's parts, and of whole servers over the loopback.

mod budget;
mod clients;
mod desk;
mod door;
mod keys;
mod pace;
mod serving;
mod system;
