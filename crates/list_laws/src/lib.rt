// What holds of lists of servers (draft 19, section 8.3). Which texts are lists, in 8.3's words. What the records
// contain that are read from a list, and which server is found in them by its key. A list that is written is read as
// what was lent. There is no code here.
#![tactic(auto)]
