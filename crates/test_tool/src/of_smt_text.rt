pub(crate) mod leaves;
mod reads;
