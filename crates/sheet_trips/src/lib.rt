// Sheets round-trip, and may be read as their characters arrive: the statements are in specs/, for every chain and every list
// of bytes.

#![tactic(auto)]
