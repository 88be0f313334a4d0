// General definitions and laws that know nothing of messages: choosing by a test, searching, lists, and fields of a word. It has no functions.
#![tactic(auto)]
