// Tables of fields, each given by word, lowest bit and width: reading, putting some of them, and when no two share a bit. It has no functions.
#![tactic(auto)]
