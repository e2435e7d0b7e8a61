//! A replica that starts again from what it wrote down.

mod again;
mod anew;
mod frames;
mod lent;
mod refused;
mod seats;
mod spelled;
mod stops;
