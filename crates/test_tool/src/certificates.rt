//! Certificates that several tests take.

/// Of `COMPARED`: its byte is 10 or more, and then 21 or more, or less; or it is below 10, and then below 21.
pub(crate) static THREE_LEAVES: &str = "rvklee cert 1
regions 00011000:1
budgets 10000 16 2000 1000000
split N Y
one Y
tried
end 00
split N Y
end 15
end 0a
";
