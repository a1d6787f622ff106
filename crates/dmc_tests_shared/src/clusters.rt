//! Tests of settling two servers and two clients.
mod playing;
mod settling;
mod setup;
