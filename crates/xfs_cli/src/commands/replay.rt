//! The command `replay`.

pub mod answer;
pub mod clients;
pub mod command;
pub mod mail;
pub mod player;
pub mod rest;
pub mod verbs;
