mod events;
mod learnt;
mod reports;
mod spent;
