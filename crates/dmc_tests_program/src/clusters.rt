//! Tests of whole runs, in threads.
mod backward_clock;
mod clocks;
mod failing_service;
mod full_histories;
mod gate;
mod histories;
mod refused_rates;
mod runs;
mod setup;
mod written;
