mod reads;
mod upgrades;
mod writes;
