// RFC 8032's affine law never divides by 0, since d is no square, and it makes the points of the curve a group. No Z is
// 0, and what is computed in extended coordinates stands for a sum of points. The base point has the prime order L
// (specs/, proofs/). There is no code here.
#![tactic(auto)]
