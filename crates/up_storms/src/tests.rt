//! What no clause of a storm can say: that its sessions run at once.
mod at_once;
